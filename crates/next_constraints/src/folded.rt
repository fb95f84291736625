// The element-wise sums Σ φ_i c_i of the aggregate's φ, from which check 7 of the next instance is written.
ghost use Rattle.std.specs.Prelude.{◌≡◌, ◌*◌, ◌≤◌, length};
ghost use Rattle.integers.specs.Over.{over};
ghost use Rattle.ring.specs.Element.{Degree, lift};
ghost use Rattle.fold.specs.Messages.{elements, aggregate};
ghost use Rattle.constraints.specs.Known.Facts.{AggregateFacts};
ghost use Rattle.next_constraints.specs.Folded.{plus_multiple, folded_sum};

use crate::blocks::write_zeros;
use constraints::phi::write_phi_part;
use constraints::row_groups;
use constraints::row_groups::OMEGA_SUMS;
use fold::ConstraintSizes;
use fold::limits::PART_ROOM;
use ring::element::Element;

// Adds the first n elements of a list, times a weight, to those of `out`.
fn add_multiples(d: usize, n: usize, list: &[i32], weight: Element, out: &mut [i32])
    requires degree { Degree d }
    requires d_in_bounds { (n * d ≤ length list.now) × (n * d ≤ length out.old) }
    ensures { out.new ≡ over out.old 0 (elements d n (plus_multiple d out.old list.now
        (lift d weight.coefficients))) }
{
    for k in 0..n {
        let multiple = Element::from_slice(d, list, k).product(d, weight);
        let sum = Element::from_slice(d, out, k).sum(d, multiple);
        sum.store(d, out, k);
    }
}

// Σ φ_i c_i for every element of z, as the first elements of `out`.
pub fn write_folded(
    sizes: ConstraintSizes,
    whole: &[i32],
    constant_terms: &[i32],
    projections: &[i32],
    psi: &[i32],
    omega: &[i32],
    alpha: &[i32],
    delta: &[i32],
    c: &[i32],
    out: &mut [i32],
)
    requires aggregate_facts { AggregateFacts sizes.shape.d sizes.shape.n sizes.shape.r sizes.k sizes.l sizes.w whole.now
        constant_terms.now projections.now psi.now omega.now alpha.now delta.now }
    requires d_in_bounds { (sizes.shape.r * sizes.shape.d ≤ length c.now) × (sizes.shape.n * sizes.shape.d ≤ length out.old) }
    ensures { out.new ≡ over out.old 0 (elements sizes.shape.d sizes.shape.n
        (folded_sum sizes.shape.d sizes.shape.r (aggregate sizes.shape.d sizes.shape.n sizes.shape.r sizes.k sizes.l
        sizes.w whole.now constant_terms.now projections.now psi.now omega.now
        alpha.now delta.now).φ c.now)) }
{
    let mut omega_sums = [0i64; OMEGA_SUMS];
    row_groups::write_omega_sums(sizes.w, omega, &mut omega_sums);
    let d = sizes.shape.d;
    let n = sizes.shape.n;
    write_zeros(d, n, out, 0);
    let mut phi = [0i32; PART_ROOM];
    for i in 0..sizes.shape.r {
        write_phi_part(
            sizes,
            whole,
            constant_terms,
            projections,
            psi,
            omega,
            &omega_sums,
            alpha,
            delta,
            i,
            &mut phi,
        );
        add_multiples(d, n, &phi, Element::from_slice(d, c, i), out);
    }
}
