// Checks 1 and 9: squared lengths against bounds.
ghost use Rattle.std.specs.Prelude.{◌≡◌, ◌≤◌, length};
ghost use Rattle.residues.specs.Length.{remaining};
ghost use Rattle.fold.specs.Opening.{digits_length};
ghost use Rattle.fold.specs.Verdict.{check₁};
ghost use Rattle.checks.specs.Known.Facts.{Fits, Opening};
ghost use Rattle.checks.specs.Norms.{three_lengths};
ghost use Rattle.fold.specs.Limits.{most_bound, most_projections};

use fold::{Sizes, places};
use residues::length;

// Check 1: 2·|p|² is at most w·β².
pub fn short_projection(w: usize, bound: u64, p: &[i32]) -> bool
    requires { (w ≤ most_projections) × (bound ≤ most_bound) }
    ensures { result ≡ check₁ w bound p.now }
{
    let budget = w as u64 * bound;
    let once = length::compare(budget, p);
    length::lessen(once, p).is_some()
}

// The squared length of xs, cut at two places, against the target.
fn parts_margin(target: u64, first: usize, second: usize, xs: &[i32]) -> Option<u64>
    requires { (first ≤ second) × (second ≤ length xs.now) }
    ensures { result ≡ remaining target (three_lengths first second xs.now) }
{
    let low = length::compare(target, &xs[..first]);
    let middle = length::lessen(low, &xs[first..second]);
    length::lessen(middle, &xs[second..])
}

// Check 9: the squared length of all digits, tz of them of z, against β'².
pub fn opening_margin(tz: usize, sizes: Sizes, opening: &[i32]) -> Option<u64>
    requires tz_bound { tz ≤ 2 }
    requires fits { Fits sizes }
    requires opening { Opening tz sizes opening.now }
    ensures { result ≡ remaining sizes.target (digits_length sizes.shape.d sizes.shape.n sizes.shape.r tz sizes.kappa sizes.t1 sizes.t2
        opening.now) }
{
    let d = sizes.shape.d;
    let t_start = places::t_place(tz, sizes) * d;
    let h_start = places::h_place(tz, sizes) * d;
    parts_margin(sizes.target, t_start, h_start, opening)
}
