// Check 7: the aggregated function's φ against h. Each φ_i is formed once, as a list.
ghost use Rattle.std.specs.Prelude.{◌≡◌, ◌*◌, ◌<◌, ◌≤◌, length};
ghost use Rattle.algebra.specs.Sum.{sum};
ghost use Rattle.algebra.specs.DotProduct.{mixed};
ghost use Rattle.ring.specs.Element.{R, lift, el, array, same};
ghost use Rattle.fold.specs.Messages.{aggregate};
ghost use Rattle.fold.specs.Known.Facts.{Shaped};
ghost use Rattle.fold.specs.Known.WorkFacts.{AggregateFacts, FoldedFacts};
ghost use Rattle.checks.specs.Known.Facts.{Holds, h_value};
ghost use Rattle.checks.specs.Relation.{linear_summand};

use crate::amortized;
use constraints::phi::write_phi_part;
use constraints::row_groups;
use constraints::row_groups::OMEGA_SUMS;
use fold::limits::PART_ROOM;
use fold::{ConstraintSizes, Shape, Sizes, places};
use ring::element::Element;
use ring::product::inner;

// <φ_i, z> c_i, with φ_i and z read from the start of slices.
fn linear_summand(shape: Shape, phi: &[i32], z: &[i32], c: &[i32], i: usize) -> Element
    requires shaped { Shaped shape.d shape.n shape.r }
    requires d_in_bounds { (shape.n * shape.d ≤ length phi.now) × (shape.n * shape.d ≤ length z.now) }
    requires holds { Holds shape.d shape.r c.now × (i < shape.r) }
    ensures { result.coefficients ≡ array shape.d (linear_summand shape.d shape.n (λ _. el shape.d phi.now) c.now
        z.now i) }
{
    let d = shape.d;
    let product = Element {
        coefficients: inner(d, shape.n, phi, 0, z, 0),
    };
    product.product(d, Element::from_slice(d, c, i))
}

// Σ <φ_i, z> c_i, with z read from the start of a slice.
pub fn linear_sum(
    sizes: ConstraintSizes,
    whole: &[i32],
    constant_terms: &[i32],
    projections: &[i32],
    psi: &[i32],
    omega: &[i32],
    alpha: &[i32],
    delta: &[i32],
    c: &[i32],
    z: &[i32],
) -> Element
    requires aggregate_facts { AggregateFacts sizes.shape.d sizes.shape.n sizes.shape.r sizes.k sizes.l sizes.w whole.now
        constant_terms.now projections.now psi.now omega.now alpha.now delta.now }
    requires holds { Holds sizes.shape.d sizes.shape.r c.now }
    requires d_in_bounds { sizes.shape.n * sizes.shape.d ≤ length z.now }
    ensures { result.coefficients ≡ array sizes.shape.d (sum (R sizes.shape.d) sizes.shape.r
        (linear_summand sizes.shape.d sizes.shape.n (aggregate sizes.shape.d sizes.shape.n sizes.shape.r sizes.k
        sizes.l sizes.w whole.now constant_terms.now projections.now psi.now
        omega.now alpha.now delta.now).φ c.now z.now)) }
{
    let mut omega_sums = [0i64; OMEGA_SUMS];
    row_groups::write_omega_sums(sizes.w, omega, &mut omega_sums);
    let shape = sizes.shape;
    let mut phi = [0i32; PART_ROOM];
    let mut acc = Element::additive_identity();
    for i in 0..shape.r {
        write_phi_part(
            sizes,
            whole,
            constant_terms,
            projections,
            psi,
            omega,
            &omega_sums,
            alpha,
            delta,
            i,
            &mut phi,
        );
        acc = acc.sum(shape.d, linear_summand(shape, &phi, z, c, i));
    }
    acc
}

// Check 7: Σ <φ_i, z> c_i, given as an element, is the mixed sum of h.
pub fn linear_holds(tz: usize, sizes: Sizes, linear: Element, c: &[i32], opening: &[i32]) -> bool
    requires tz_bound { tz ≤ 2 }
    requires folded_facts { FoldedFacts tz sizes c.now opening.now }
    ensures { result ≡ same sizes.shape.d (lift sizes.shape.d linear.coefficients) (mixed (R sizes.shape.d) sizes.shape.r
        (h_value tz sizes opening.now) (el sizes.shape.d c.now)) }
{
    let d = sizes.shape.d;
    let start = places::h_place(tz, sizes);
    let right = amortized::mixed_sum(d, sizes.shape.r, sizes.b1, sizes.t1, opening, start, c);
    linear.equals(d, right)
}
