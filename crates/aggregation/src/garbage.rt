// Message 4: "h_ii = <φ_i,s_i>; for i < j, h_ij is half of <φ_i,s_j> + <φ_j,s_i>. h in t1 digits to base b1; u2 = D·(h digits), κ2 rows."
ghost use Rattle.std.specs.Prelude.{◌≡◌, ◌+◌, ◌-◌, ◌*◌, ◌<◌, ◌≤◌, length};
ghost use Rattle.integers.specs.Over.{over};
ghost use Rattle.ring.specs.Element.{Degree, el, array};
ghost use Rattle.fold.specs.Sizes.{pairs};
ghost use Rattle.fold.specs.Messages.{elements, times, aggregate, h_digits, u₂};
ghost use Rattle.fold.specs.PairElements.{pair_elements};
ghost use Rattle.fold.specs.Known.WorkFacts.{HFacts, U₂Facts};
ghost use Rattle.aggregation.specs.Garbage.{halved};

use crate::products::write_products;
use fold::counts::{garbage_size, pair_count};
use fold::limits::{PAIR_ROOM, SQUARE_ROOM};
use fold::{ConstraintSizes, GarbageSizes};
use prover::garbage::write_digits;
use ring::element::Element;
use ring::product::inner;

// h_ij, where `products` holds the <φ_i, s_j>: for i = j it is half of twice <φ_i, s_i>.
fn half_sum(d: usize, r: usize, products: &[i32], i: usize, j: usize) -> Element
    requires degree { Degree d }
    requires i_lt_r { (i < r) × (j < r) × (r * r * d ≤ length products.now) }
    ensures { result.coefficients ≡ array d (halved d r products.now i j) }
{
    let one = Element::from_slice(d, products, i * r + j);
    let other = Element::from_slice(d, products, j * r + i);
    one.sum(d, other).half(d)
}

// The h_ij of part i with the parts from i on, written from element `at` on.
fn write_half_row(d: usize, r: usize, products: &[i32], i: usize, out: &mut [i32], at: usize)
    requires degree { Degree d }
    requires i_le_r { (i ≤ r) × (r * r * d ≤ length products.now) × ((at + (r - i)) * d ≤ length out.old) }
    ensures { out.new ≡ over out.old (at * d) (elements d (r - i) (λ k. halved d r products.now i (i + k))) }
{
    for k in 0..r - i {
        half_sum(d, r, products, i, i + k).store(d, out, at + k);
    }
}

// The h_ij for i ≤ j, as the first elements of `out`.
fn write_half_sums(d: usize, r: usize, products: &[i32], out: &mut [i32])
    requires degree { Degree d }
    requires d_in_bounds { (r * r * d ≤ length products.now) × (pairs r * d ≤ length out.old) }
    ensures { out.new ≡ over out.old 0 (pair_elements d r (halved d r products.now)) }
{
    let mut at = 0;
    for i in 0..r {
        write_half_row(d, r, products, i, out, at);
        at += r - i;
    }
}

// The h digits: by i, then j, then digit.
pub fn write_h(
    sizes: GarbageSizes,
    whole: &[i32],
    constant_terms: &[i32],
    projections: &[i32],
    psi: &[i32],
    omega: &[i32],
    alpha: &[i32],
    delta: &[i32],
    witness: &[i32],
    out: &mut [i32],
)
    requires { HFacts sizes whole.now constant_terms.now projections.now psi.now omega.now alpha.now delta.now witness.now out.old }
    ensures { out.new ≡ h_digits sizes.shape.d sizes.shape.n sizes.shape.r sizes.b1 sizes.t1
        (aggregate sizes.shape.d sizes.shape.n sizes.shape.r sizes.k sizes.l sizes.w whole.now constant_terms.now projections.now
        psi.now omega.now alpha.now delta.now).φ witness.now }
{
    let shape = sizes.shape;
    let d = shape.d;
    let r = shape.r;
    let constraint_sizes = ConstraintSizes {
        shape,
        k: sizes.k,
        l: sizes.l,
        w: sizes.w,
    };
    let mut products = [0i32; SQUARE_ROOM];
    write_products(
        constraint_sizes,
        whole,
        constant_terms,
        projections,
        psi,
        omega,
        alpha,
        delta,
        witness,
        &mut products,
    );
    let mut values = [0i32; PAIR_ROOM];
    write_half_sums(d, r, &products, &mut values);
    write_digits(d, sizes.b1, sizes.t1, pair_count(r), &values, out);
}

// The product of a matrix of m columns with the vector x, row by row.
fn write_rows(d: usize, rows: usize, m: usize, matrix: &[i32], x: &[i32], out: &mut [i32])
    requires degree { Degree d }
    requires m_bound { (m ≤ 4096) × (rows * m * d ≤ length matrix.now) × (m * d ≤ length x.now) × (length out.old ≡ rows * d) }
    ensures { out.new ≡ elements d rows (λ k. times d m matrix.now k (el d x.now)) }
{
    for k in 0..rows {
        let product = Element {
            coefficients: inner(d, m, matrix, k * m, x, 0),
        };
        product.store(d, out, k);
    }
}

// u2 = D·(h digits).
pub fn write_u2(sizes: GarbageSizes, d_matrix: &[i32], digits: &[i32], out: &mut [i32])
    requires { U₂Facts sizes d_matrix.now digits.now out.old }
    ensures { out.new ≡ u₂ sizes.shape.d sizes.shape.r sizes.kappa2 sizes.t1 d_matrix.now digits.now }
{
    let m = garbage_size(sizes.shape.r, sizes.t1);
    write_rows(sizes.shape.d, sizes.kappa2, m, d_matrix, digits, out);
}
