// The aggregated function, by place: SPECIFICATION 4.4.
ghost use Rattle.std.specs.Prelude.{◌≡◌, ◌*◌, ◌<◌, ◌≤◌, [], length, get_or};
ghost use Rattle.algebra.specs.Sum.{sum};
ghost use Rattle.ring.specs.Element.{Degree, R, lift, el, array};
ghost use Rattle.fold.specs.Sizes.{pairs, function_size};
ghost use Rattle.fold.specs.Messages.{aggregate_constant};
ghost use Rattle.fold.specs.Entries.{whole_entry, aggregate_a};
ghost use Rattle.constraints.specs.Known.Facts.{TermFacts, WholeFacts};
ghost use Rattle.constraints.specs.Aggregated.{aggregate_rowΦ};

use crate::second::{COUNT, second_row_a, second_row_phi};
use fold::{ConstraintSizes, Shape, counts};
use ring::element::Element;
use ring::product;

// Σ_k α_k f_k at place e; place function_size is the constants.
fn whole_entry(shape: Shape, kc: usize, whole: &[i32], alpha: &[i32], e: usize) -> Element
    requires whole_facts { WholeFacts shape.d shape.n shape.r kc whole.now alpha.now }
    requires e_bound { e ≤ function_size shape.n shape.r }
    ensures { result.coefficients ≡ array shape.d (whole_entry shape.d shape.n shape.r kc whole.now
        alpha.now e) }
{
    let d = shape.d;
    let step = (counts::function_size(shape.n, shape.r) + 1) * d;
    let mut sum = Element::additive_identity();
    for k in 0..kc {
        let entry = Element::from_slice(d, &whole[k * step..], e);
        let weight = Element::from_slice(d, alpha, k);
        sum = sum.sum(d, weight.product(d, entry));
    }
    sum
}

// Σ_k δ_k x_k, where the row holds the x_k.
fn weighted_row(d: usize, delta: &[i32], row: [[i32; 64]; 5]) -> Element
    requires degree { Degree d }
    requires delta_len { length delta.now ≡ 5 * d }
    ensures { result.coefficients ≡ array d (sum (R d) 5 (λ k. (R d).mul (el d delta.now k) (lift d (get_or row k [])))) }
{
    let mut sum = Element::additive_identity();
    for k in 0..COUNT {
        let entry = Element {
            coefficients: row[k],
        };
        let weight = Element::from_slice(d, delta, k);
        sum = sum.sum(d, weight.product(d, entry));
    }
    sum
}

// The aggregate's a at pair place e.
pub fn aggregate_a(
    sizes: ConstraintSizes,
    whole: &[i32],
    constant_terms: &[i32],
    psi: &[i32],
    alpha: &[i32],
    delta: &[i32],
    e: usize,
) -> Element
    requires whole_facts { WholeFacts sizes.shape.d sizes.shape.n sizes.shape.r sizes.k whole.now alpha.now }
    requires term_facts { TermFacts sizes.shape.d sizes.shape.n sizes.shape.r sizes.l constant_terms.now psi.now }
    requires delta_len { (length delta.now ≡ 5 * sizes.shape.d) × (e < pairs sizes.shape.r) }
    ensures { result.coefficients ≡ array sizes.shape.d (aggregate_a sizes.shape.d sizes.shape.n sizes.shape.r sizes.k
        sizes.l whole.now constant_terms.now psi.now alpha.now delta.now e) }
{
    let shape = sizes.shape;
    let wholes = whole_entry(shape, sizes.k, whole, alpha, e);
    let row_a = second_row_a(shape, sizes.l, constant_terms, psi, e);
    wholes.sum(shape.d, weighted_row(shape.d, delta, row_a))
}

// The aggregate's φ at element e of the witness, from the row of the projected parts.
pub fn aggregate_phi(
    sizes: ConstraintSizes,
    whole: &[i32],
    constant_terms: &[i32],
    psi: &[i32],
    alpha: &[i32],
    delta: &[i32],
    projected: [[i32; 64]; 5],
    e: usize,
) -> Element
    requires whole_facts { WholeFacts sizes.shape.d sizes.shape.n sizes.shape.r sizes.k whole.now alpha.now }
    requires term_facts { TermFacts sizes.shape.d sizes.shape.n sizes.shape.r sizes.l constant_terms.now psi.now }
    requires delta_len { (length delta.now ≡ 5 * sizes.shape.d) × (e < sizes.shape.r * sizes.shape.n) }
    ensures { result.coefficients ≡ array sizes.shape.d (aggregate_rowΦ sizes.shape.d sizes.shape.n sizes.shape.r sizes.k
        sizes.l whole.now constant_terms.now psi.now alpha.now delta.now projected e) }
{
    let shape = sizes.shape;
    let place = counts::pair_count(shape.r) + e;
    let wholes = whole_entry(shape, sizes.k, whole, alpha, place);
    let row_phi = second_row_phi(shape, sizes.l, constant_terms, psi, projected, e);
    wholes.sum(shape.d, weighted_row(shape.d, delta, row_phi))
}

// The aggregate's b.
pub fn aggregate_constant(
    shape: Shape,
    kc: usize,
    whole: &[i32],
    alpha: &[i32],
    delta: &[i32],
    second_b: &[i32],
) -> Element
    requires whole_facts { WholeFacts shape.d shape.n shape.r kc whole.now alpha.now }
    requires delta_len { (length delta.now ≡ 5 * shape.d) × (length second_b.now ≡ 5 * shape.d) }
    ensures { result.coefficients ≡ array shape.d (aggregate_constant shape.d shape.n shape.r kc whole.now
        alpha.now delta.now second_b.now) }
{
    let place = counts::function_size(shape.n, shape.r);
    let wholes = whole_entry(shape, kc, whole, alpha, place);
    let seconds = Element {
        coefficients: product::inner(shape.d, COUNT, delta, 0, second_b, 0),
    };
    wholes.sum(shape.d, seconds)
}
