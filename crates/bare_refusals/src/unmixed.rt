// SPECIFICATION 7.14: no constraint has a nonzero a_ij with i < j.
ghost use Rattle.std.specs.Prelude.{◌≡◌, ◌+◌, ◌-◌, ◌*◌, ◌≤◌, length, drop};
ghost use Rattle.ring.specs.Element.{Degree, R, el, every, same};
ghost use Rattle.fold.specs.Sizes.{pairs};
ghost use Rattle.fold.specs.Limits.{most_parts};
ghost use Rattle.bare.specs.Refusals.{unmixed, all_unmixed};
ghost use Rattle.bare_refusals.specs.Known.Constraints.{Constraints};

use fold::ConstraintSizes;
use fold::counts::function_size;
use ring::element::Element;

// Each of `count` elements from a place on is zero.
fn zeros(d: usize, xs: &[i32], place: usize, count: usize) -> bool
    requires degree { Degree d }
    requires d_in_bounds { (place + count) * d ≤ length xs.now }
    ensures { result ≡ every count (λ k. same d (el d xs.now (place + k)) (R d).zero) }
{
    let zero = Element::additive_identity();
    let mut all = true;
    for k in 0..count {
        all &= Element::from_slice(d, xs, place + k).equals(d, zero);
    }
    all
}

// One constraint: each row of pairs after its first, a_ii.
fn function_unmixed(d: usize, r: usize, xs: &[i32]) -> bool
    requires degree { Degree d }
    requires r_le_most_parts { (r ≤ most_parts) × (pairs r * d ≤ length xs.now) }
    ensures { result ≡ unmixed d r xs.now }
{
    let mut all = true;
    let mut at = 0;
    for i in 0..r {
        all &= zeros(d, xs, at + 1, r - 1 - i);
        at += r - i;
    }
    all
}

// Each of `count` constraints, `step` numbers apart.
fn each_unmixed(d: usize, r: usize, step: usize, count: usize, xs: &[i32]) -> bool
    requires degree { Degree d }
    requires r_le_most_parts { (r ≤ most_parts) × (pairs r * d ≤ step) × (length xs.now ≡ count * step) }
    ensures { result ≡ every count (λ k. unmixed d r (drop (k * step) xs.now)) }
{
    let mut all = true;
    for k in 0..count {
        all &= function_unmixed(d, r, &xs[k * step..]);
    }
    all
}

// Row 14: both kinds.
pub fn all_unmixed(sizes: ConstraintSizes, whole: &[i32], constant_terms: &[i32]) -> bool
    requires { Constraints sizes whole.now constant_terms.now }
    ensures { result ≡ all_unmixed sizes.shape.d sizes.shape.n sizes.shape.r sizes.k sizes.l whole.now constant_terms.now }
{
    let d = sizes.shape.d;
    let r = sizes.shape.r;
    let function = function_size(sizes.shape.n, r);
    each_unmixed(d, r, (function + 1) * d, sizes.k, whole)
        & each_unmixed(d, r, function * d + 1, sizes.l, constant_terms)
}
