// The products <φ_i, s_j> of the aggregate's φ with every part of the witness, from which message 4 forms h.
ghost use Rattle.std.specs.Prelude.{◌≡◌, ◌+◌, ◌*◌, ◌≤◌, length};
ghost use Rattle.integers.specs.Over.{over};
ghost use Rattle.ring.specs.Element.{Degree};
ghost use Rattle.fold.specs.Messages.{elements, aggregate};
ghost use Rattle.fold.specs.Known.WorkFacts.{AggregateFacts};
ghost use Rattle.aggregation.specs.Garbage.{part_product, cross, square_elements};
ghost use Rattle.fold.specs.Limits.{most_rank};

use constraints::phi::write_phi_part;
use constraints::row_groups;
use constraints::row_groups::OMEGA_SUMS;
use fold::ConstraintSizes;
use fold::limits::PART_ROOM;
use ring::element::Element;
use ring::product::inner;

// The products of one φ_i with every part s_j, written from element `at` on.
fn write_part_products(
    d: usize,
    n: usize,
    r: usize,
    phi: &[i32],
    witness: &[i32],
    out: &mut [i32],
    at: usize,
)
    requires degree { Degree d }
    requires n_le_most_rank { (n ≤ most_rank) × (n * d ≤ length phi.now) × (r * n * d ≤ length witness.now) × ((at + r) * d ≤ length out.old) }
    ensures { out.new ≡ over out.old (at * d) (elements d r (part_product d n phi.now witness.now)) }
{
    for j in 0..r {
        let product = Element {
            coefficients: inner(d, n, phi, 0, witness, j * n),
        };
        product.store(d, out, at + j);
    }
}

// The products <φ_i, s_j> for all i and j, by i and then j, as the first elements of `out`. The elements of each φ_i are formed once.
pub fn write_products(
    sizes: ConstraintSizes,
    whole: &[i32],
    constant_terms: &[i32],
    projections: &[i32],
    psi: &[i32],
    omega: &[i32],
    alpha: &[i32],
    delta: &[i32],
    witness: &[i32],
    out: &mut [i32],
)
    requires aggregate_facts { AggregateFacts sizes.shape.d sizes.shape.n sizes.shape.r sizes.k sizes.l sizes.w whole.now
        constant_terms.now projections.now psi.now omega.now alpha.now delta.now }
    requires witness_len { (length witness.now ≡ sizes.shape.r * sizes.shape.n * sizes.shape.d)
        × (sizes.shape.r * sizes.shape.r * sizes.shape.d ≤ length out.old) }
    ensures { out.new ≡ over out.old 0 (square_elements sizes.shape.d sizes.shape.r
        (cross sizes.shape.d sizes.shape.n (aggregate sizes.shape.d sizes.shape.n sizes.shape.r sizes.k sizes.l
        sizes.w whole.now constant_terms.now projections.now psi.now omega.now
        alpha.now delta.now).φ witness.now)) }
{
    let mut omega_sums = [0i64; OMEGA_SUMS];
    row_groups::write_omega_sums(sizes.w, omega, &mut omega_sums);
    let shape = sizes.shape;
    let mut phi = [0i32; PART_ROOM];
    for i in 0..shape.r {
        write_phi_part(
            sizes,
            whole,
            constant_terms,
            projections,
            psi,
            omega,
            &omega_sums,
            alpha,
            delta,
            i,
            &mut phi,
        );
        write_part_products(shape.d, shape.n, shape.r, &phi, witness, out, i * shape.r);
    }
}
