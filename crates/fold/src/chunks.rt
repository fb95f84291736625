// The sizes of the next instance and of its chunks, for an opening whose z has tz digits: SPECIFICATION 8. Within the limits of rows 1 to 5
// nothing wraps.
ghost use Rattle.std.specs.Prelude.{◌≡◌, ◌≤◌, ◌<◌};
ghost use Rattle.algebra.specs.Triangle.{start};
ghost use Rattle.fold.specs.Sizes as spec;
ghost use Rattle.fold.specs.Chunks as cuts;
ghost use Rattle.fold.specs.Known.CutSizes.{CutSizes};
ghost use Rattle.fold.specs.Limits.{most_commitment_rank, most_digits, most_parts, most_chunks};

use crate::counts::{garbage_size, t_size};

// Elements of t, g and h together: m.
pub fn rest_size(r: usize, kappa: usize, t1: usize, t2: usize) -> usize
    requires { (r ≤ most_parts) × (kappa ≤ most_commitment_rank) × (t1 ≤ most_digits) × (t2 ≤ most_digits) }
    ensures { result ≡ spec.rest_size r kappa t1 t2 }
{
    let t = t_size(r, kappa, t1);
    let g = garbage_size(r, t2);
    let h = garbage_size(r, t1);
    t + (g + h)
}

// a / b rounded up.
pub fn ceiling(a: usize, b: usize) -> usize
    requires { (a ≤ 8192) × (0 < b) × (b ≤ most_chunks) }
    ensures { result ≡ spec.ceiling a b }
{
    (a + (b - 1)) / b
}

// n', the larger of n / ν and m / μ, both rounded up.
pub fn next_rank(n: usize, nu: usize, m: usize, mu: usize) -> usize
    requires { CutSizes n nu m mu }
    ensures { result ≡ spec.next_rank n nu m mu }
{
    let of_z = ceiling(n, nu);
    let of_rest = ceiling(m, mu);
    if of_z <= of_rest { of_rest } else { of_z }
}

// Elements of chunk i where `whole` elements are cut into `count` chunks.
pub fn chunk(whole: usize, count: usize, i: usize) -> usize
    requires { (whole ≤ 8192) × (0 < count) × (count ≤ most_chunks) × (i ≤ most_chunks) }
    ensures { result ≡ cuts.chunk whole count i }
{
    let size = ceiling(whole, count);
    let before = i * size;
    if whole <= before {
        return 0;
    }
    let left = whole - before;
    if left <= size { left } else { size }
}

// Elements of part s, from 0, of the next witness.
pub fn chunk_width(tz: usize, n: usize, nu: usize, m: usize, mu: usize, s: usize) -> usize
    requires tz_bound { tz ≤ 2 }
    requires cut_sizes { CutSizes n nu m mu }
    requires s_le_most_chunks { s ≤ most_chunks }
    ensures { result ≡ cuts.width tz n nu m mu s }
{
    let of_z = tz * nu;
    if s < of_z {
        return chunk(n, nu, s % nu);
    }
    chunk(m, mu, s - of_z)
}

// Elements of the opening before part s.
pub fn chunk_start(tz: usize, n: usize, nu: usize, m: usize, mu: usize, s: usize) -> usize
    requires tz_bound { tz ≤ 2 }
    requires cut_sizes { CutSizes n nu m mu }
    requires s_le_most_chunks { s ≤ most_chunks }
    ensures { result ≡ start (cuts.width tz n nu m mu) s }
{
    let mut at = 0;
    for k in 0..s {
        at += chunk_width(tz, n, nu, m, mu, k);
    }
    at
}
