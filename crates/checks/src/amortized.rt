// Checks 5 and 6: the amortized opening z, of tz digits, against t and g.
ghost use Rattle.std.specs.Prelude.{◌≡◌, ◌+◌, ◌-◌, ◌*◌, ◌<◌, ◌≤◌, length};
ghost use Rattle.algebra.specs.Sum.{sum};
ghost use Rattle.algebra.specs.Triangle.{pair};
ghost use Rattle.algebra.specs.DotProduct.{mixed};
ghost use Rattle.ring.specs.Element.{R, Degree, lift, el, array, same};
ghost use Rattle.fold.specs.Messages.{times};
ghost use Rattle.fold.specs.Opening.{block, garbage_of};
ghost use Rattle.fold.specs.Verdict.{check₅, check₆};
ghost use Rattle.fold.specs.Known.WorkFacts.{FoldedFacts, AmortizedFacts};
ghost use Rattle.checks.specs.Known.Facts.{Holds, t_value, g_value};
ghost use Rattle.checks.specs.Mixed.{Garbage, mixed_summand, mixed_row};

use crate::indices::{every, sum_of};
use crate::{outer, recomposed};
use fold::{Sizes, places};
use ring::element::Element;
use ring::product;

// c_i times row k of t_i.
fn folded_summand(
    tz: usize,
    sizes: Sizes,
    c: &[i32],
    opening: &[i32],
    i: usize,
    k: usize,
) -> Element
    requires tz_bound { tz ≤ 2 }
    requires folded_facts { FoldedFacts tz sizes c.now opening.now }
    requires i_lt_r { (i < sizes.shape.r) × (k < sizes.kappa) }
    ensures { result.coefficients ≡ array sizes.shape.d ((R sizes.shape.d).mul (el sizes.shape.d c.now i)
        (t_value tz sizes opening.now i k)) }
{
    let d = sizes.shape.d;
    let start = places::t_place(tz, sizes);
    let t = recomposed::t_of(d, sizes.kappa, sizes.b1, sizes.t1, opening, start, i, k);
    Element::from_slice(d, c, i).product(d, t)
}

// Row k of Σ c_i t_i.
fn folded_row(tz: usize, sizes: Sizes, c: &[i32], opening: &[i32], k: usize) -> Element
    requires tz_bound { tz ≤ 2 }
    requires folded_facts { FoldedFacts tz sizes c.now opening.now }
    requires k_lt_kappa { k < sizes.kappa }
    ensures { result.coefficients ≡ array sizes.shape.d (sum (R sizes.shape.d) sizes.shape.r
        (λ i. (R sizes.shape.d).mul (el sizes.shape.d c.now i) (t_value tz sizes opening.now i k))) }
{
    sum_of(
        sizes.shape.d,
        sizes.shape.r,
        |i| folded_summand(tz, sizes, c, opening, i, k),
    )
}

// Row k of A z is that of Σ c_i t_i.
fn amortized_row(
    tz: usize,
    sizes: Sizes,
    a_matrix: &[i32],
    c: &[i32],
    z: &[i32],
    opening: &[i32],
    k: usize,
) -> bool
    requires tz_bound { tz ≤ 2 }
    requires amortized_facts { AmortizedFacts tz sizes a_matrix.now c.now opening.now }
    requires d_in_bounds { sizes.shape.n * sizes.shape.d ≤ length z.now }
    requires k_lt_kappa { k < sizes.kappa }
    ensures { result ≡ same sizes.shape.d (times sizes.shape.d sizes.shape.n a_matrix.now k (el sizes.shape.d z.now))
        (sum (R sizes.shape.d) sizes.shape.r (λ i. (R sizes.shape.d).mul (el sizes.shape.d c.now i)
        (t_value tz sizes opening.now i k))) }
{
    let left = outer::row_times(sizes.shape.d, sizes.shape.n, a_matrix, k, z, 0);
    left.equals(sizes.shape.d, folded_row(tz, sizes, c, opening, k))
}

// Check 5: every row of A z, with z read from the start of a slice.
pub fn amortized(
    tz: usize,
    sizes: Sizes,
    a_matrix: &[i32],
    c: &[i32],
    z: &[i32],
    opening: &[i32],
) -> bool
    requires tz_bound { tz ≤ 2 }
    requires amortized_facts { AmortizedFacts tz sizes a_matrix.now c.now opening.now }
    requires d_in_bounds { sizes.shape.n * sizes.shape.d ≤ length z.now }
    ensures { result ≡ check₅ sizes.shape.d sizes.shape.n sizes.shape.r sizes.kappa a_matrix.now c.now
        (el sizes.shape.d z.now) (t_value tz sizes opening.now) }
{
    every(
        sizes.kappa,
        |k| amortized_row(tz, sizes, a_matrix, c, z, opening, k),
    )
}

// Summand k of row i of the mixed sum: the garbage element of (i, j) for j = i + k, times c_i c_j, doubled off the diagonal.
// q is the number of the row's first pair.
fn mixed_summand(
    d: usize,
    r: usize,
    b: usize,
    t: usize,
    opening: &[i32],
    place: usize,
    c: &[i32],
    i: usize,
    q: usize,
    k: usize,
) -> Element
    requires garbage { Garbage d r b t place opening.now }
    requires holds { Holds d r c.now }
    requires k_bound { (k < r - i) × (q ≡ pair r i i) }
    ensures { result.coefficients ≡ array d (mixed_summand d r b t place c.now opening.now i k) }
{
    let garbage = recomposed::garbage_of(d, b, t, opening, place, q + k);
    let left = Element::from_slice(d, c, i);
    let right = Element::from_slice(d, c, i + k);
    let once = garbage.product(d, left.product(d, right));
    if k == 0 {
        return once;
    }
    once.sum(d, once)
}

// Row i of the mixed sum; q is the number of its first pair.
fn mixed_row(
    d: usize,
    r: usize,
    b: usize,
    t: usize,
    opening: &[i32],
    place: usize,
    c: &[i32],
    i: usize,
    q: usize,
) -> Element
    requires garbage { Garbage d r b t place opening.now }
    requires holds { Holds d r c.now }
    requires i_lt_r { (i < r) × (q ≡ pair r i i) }
    ensures { result.coefficients ≡ array d (mixed_row d r b t place c.now opening.now i) }
{
    sum_of(
        d,
        r - i,
        |k| mixed_summand(d, r, b, t, opening, place, c, i, q, k),
    )
}

// Σ w_ii c_i² + 2 Σ_{i<j} w_ij c_i c_j, where w is g or h, its digits from element `place` of the opening on.
pub fn mixed_sum(
    d: usize,
    r: usize,
    b: usize,
    t: usize,
    opening: &[i32],
    place: usize,
    c: &[i32],
) -> Element
    requires garbage { Garbage d r b t place opening.now }
    requires holds { Holds d r c.now }
    ensures { result.coefficients ≡ array d (mixed (R d) r (garbage_of d r b t (block d opening.now place))
        (el d c.now)) }
{
    let mut acc = Element::additive_identity();
    let mut q = 0;
    for i in 0..r {
        acc = acc.sum(d, mixed_row(d, r, b, t, opening, place, c, i, q));
        q += r - i;
    }
    acc
}

// Check 6: <z,z> is the mixed sum of g, with z read from the start of a slice.
pub fn self_product(tz: usize, sizes: Sizes, c: &[i32], z: &[i32], opening: &[i32]) -> bool
    requires tz_bound { tz ≤ 2 }
    requires folded_facts { FoldedFacts tz sizes c.now opening.now }
    requires d_in_bounds { sizes.shape.n * sizes.shape.d ≤ length z.now }
    ensures { result ≡ check₆ sizes.shape.d sizes.shape.n sizes.shape.r c.now (el sizes.shape.d z.now)
        (g_value tz sizes opening.now) }
{
    let d = sizes.shape.d;
    let left = Element {
        coefficients: product::inner(d, sizes.shape.n, z, 0, z, 0),
    };
    let start = places::g_place(tz, sizes);
    let right = mixed_sum(d, sizes.shape.r, sizes.b2, sizes.t2, opening, start, c);
    left.equals(d, right)
}
