// The sizes that several calls test, in groups: SPECIFICATION 7.2, 7.3, 7.4 and 7.6. Tests are joined by `&`, not `&&`: each is safe on
// any number, and without a branch the proof of a call is one line.
ghost use Rattle.std.specs.Prelude.{◌≡◌, [], ◌∷◌, pos};
ghost use Rattle.fold.specs.Refusals.{all_of};
ghost use Rattle.fold.specs.Refusals as spec;

use crate::rows::{
    base, commitment_rank, constraint_count, digit_count, length_bound, parts, projection_count,
    rank,
};

// Row 2: n and r.
pub fn shape(n: usize, r: usize) -> bool
    ensures { result ≡ all_of (spec.shape (pos n) (pos r)) }
{
    rank(n) & parts(r)
}

// Row 2: K, L and w.
pub fn counts(k: usize, l: usize, w: usize) -> bool
    ensures { result ≡ all_of (spec.counts (pos k) (pos l) (pos w)) }
{
    constraint_count(k) & constraint_count(l) & projection_count(w)
}

// Row 3: κ and κ1.
pub fn ranks(kappa: usize, kappa1: usize) -> bool
    ensures { result ≡ all_of (spec.ranks (pos kappa) (pos kappa1)) }
{
    commitment_rank(kappa) & commitment_rank(kappa1)
}

// Row 4: b1, b2, t1 and t2.
pub fn digits(b1: usize, b2: usize, t1: usize, t2: usize) -> bool
    ensures { result ≡ all_of (spec.digits (pos b1) (pos b2) (pos t1) (pos t2)) }
{
    base(b1) & base(b2) & digit_count(t1) & digit_count(t2)
}

// Row 6: β², and β'² or the bound on z.
pub fn length_bounds(bound: u64, target: u64) -> bool
    ensures { result ≡ all_of (spec.length_bound (pos bound) ∷ spec.length_bound (pos target) ∷ []) }
{
    length_bound(bound) & length_bound(target)
}
