// How the opening is cut, and where its blocks stand: SPECIFICATION 8.
ghost use Rattle.std.specs.Prelude.{◌≡◌, ◌<◌, ◌≤◌};
ghost use Rattle.fold.specs.Arguments.{VerifySized};
ghost use Rattle.fold.specs.Sizes.{rest_size, next_rank};
ghost use Rattle.fold.specs.Known.CallLimits.{ChunkLimits};
ghost use Rattle.next_checks.specs.Known.Facts.{CutFacts};
ghost use Rattle.fold.specs.Limits.{most_rank};

use fold::Sizes;
use fold::chunks::{next_rank, rest_size};
use fold::counts::{function_size, garbage_size, pair_count, t_size};

// The number of z digits, ν, μ, m, n' and r', with the number of pairs i ≤ j of r' parts and the number of elements of a and φ together.
// Before they are spread over the parts, the coefficients stand at the end of φ: those of z, t, g and h from these elements of the
// constraint on.
#[derive(Clone, Copy)]
pub struct Cut {
    pub tz: usize,
    pub nu: usize,
    pub mu: usize,
    pub m: usize,
    pub rank: usize,
    pub parts: usize,
    pub pairs: usize,
    pub size: usize,
    pub z: usize,
    pub t: usize,
    pub g: usize,
    pub h: usize,
}

// How sizes that are not refused are cut.
pub fn cut_of(sizes: Sizes, tz: usize, nu: usize, mu: usize) -> Cut
    requires verify_sized { VerifySized sizes }
    requires tz_nonzero { (0 < tz) × (tz ≤ 2) }
    requires chunk_limits { ChunkLimits tz nu mu }
    requires mu_bound { next_rank sizes.shape.n nu (rest_size sizes.shape.r sizes.kappa sizes.t1 sizes.t2) mu ≤ most_rank }
    ensures { CutFacts sizes result × (result.tz ≡ tz) × (result.nu ≡ nu) × (result.mu ≡ mu) }
{
    let m = rest_size(sizes.shape.r, sizes.kappa, sizes.t1, sizes.t2);
    let rank = next_rank(sizes.shape.n, nu, m, mu);
    let parts = tz * nu + mu;
    let pairs = pair_count(parts);
    let size = function_size(rank, parts);
    let of_z = tz * sizes.shape.n;
    let z = size - (of_z + m);
    let t = z + of_z;
    let g = t + t_size(sizes.shape.r, sizes.kappa, sizes.t1);
    let h = g + garbage_size(sizes.shape.r, sizes.t2);
    Cut {
        tz,
        nu,
        mu,
        m,
        rank,
        parts,
        pairs,
        size,
        z,
        t,
        g,
        h,
    }
}
