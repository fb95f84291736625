// The lists by pair (i, j) from which the constraints of the next instance are written: the products of challenges, the aggregate's a, and
// the diagonal.
ghost use Rattle.std.specs.Prelude.{◌≡◌, cond, ℕ, ◌+◌, ◌-◌, ◌*◌, ◌<◌, ◌≤◌, eqb, length, pos};
ghost use Rattle.integers.specs.Over.{over};
ghost use Rattle.ring.specs.Element.{R, Degree, el, array};
ghost use Rattle.fold.specs.Sizes.{pairs};
ghost use Rattle.fold.specs.Messages.{elements};
ghost use Rattle.fold.specs.Entries.{aggregate_a};
ghost use Rattle.fold.specs.NextInstance.{product};
ghost use Rattle.fold.specs.PairElements.{pair_elements};
ghost use Rattle.constraints.specs.Known.Facts.{WholeFacts, TermFacts};

use crate::elements::{write_each, write_pairs};
use constraints::aggregated::aggregate_a;
use fold::ConstraintSizes;
use fold::counts::pair_count;
use ring::element::Element;

// How often a pair counts: once for i = j, twice for i < j.
fn pair_factor(i: usize, j: usize) -> i32
    ensures { result ≡ cond (eqb i j) (pos 1) (pos 2) }
{
    if i == j { 1 } else { 2 }
}

// Minus c_i c_j, doubled for i < j.
fn minus_product(d: usize, c: &[i32], i: usize, j: usize) -> Element
    requires degree { Degree d }
    requires d_in_bounds { (i * d + d ≤ length c.now) × (j * d + d ≤ length c.now) }
    ensures { result.coefficients ≡ array d ((R d).neg (product d (el d c.now) i j)) }
{
    let once = Element::from_slice(d, c, i).product(d, Element::from_slice(d, c, j));
    once.scale(d, pair_factor(i, j)).negation(d)
}

// Minus the products of the challenges, as the first elements of `out`.
pub fn write_products(d: usize, r: usize, c: &[i32], out: &mut [i32])
    requires degree { Degree d }
    requires d_in_bounds { (r * d ≤ length c.now) × (pairs r * d ≤ length out.old) }
    ensures { out.new ≡ over out.old 0
        (pair_elements d r (λ i j. (R d).neg (product d (el d c.now) i j))) }
{
    write_pairs(d, r, out, |i, j| minus_product(d, c, i, j));
}

// 1 for i = j, else 0.
fn diagonal_entry(i: usize, j: usize) -> Element
    ensures { (d : ℕ) → 0 < d → result.coefficients ≡ array d (cond (eqb i j) (R d).one (R d).zero) }
{
    if i == j {
        Element::multiplicative_identity()
    } else {
        Element::additive_identity()
    }
}

// The diagonal, as the first elements of `out`.
pub fn write_diagonal(d: usize, r: usize, out: &mut [i32])
    requires degree { Degree d }
    requires d_in_bounds { pairs r * d ≤ length out.old }
    ensures { out.new ≡ over out.old 0 (pair_elements d r (λ i j. cond (eqb i j) (R d).one (R d).zero)) }
{
    write_pairs(d, r, out, diagonal_entry);
}

// The aggregate's a by pair place, as the first elements of `out`.
pub fn write_aggregate_a(
    sizes: ConstraintSizes,
    whole: &[i32],
    constant_terms: &[i32],
    psi: &[i32],
    alpha: &[i32],
    delta: &[i32],
    out: &mut [i32],
)
    requires whole_facts { WholeFacts sizes.shape.d sizes.shape.n sizes.shape.r sizes.k whole.now alpha.now }
    requires term_facts { TermFacts sizes.shape.d sizes.shape.n sizes.shape.r sizes.l constant_terms.now psi.now }
    requires delta_len { (length delta.now ≡ 5 * sizes.shape.d) × (pairs sizes.shape.r * sizes.shape.d ≤ length out.old) }
    ensures { out.new ≡ over out.old 0 (elements sizes.shape.d (pairs sizes.shape.r) (aggregate_a sizes.shape.d sizes.shape.n
        sizes.shape.r sizes.k sizes.l whole.now constant_terms.now psi.now alpha.now delta.now)) }
{
    write_each(sizes.shape.d, pair_count(sizes.shape.r), out, 0, |e| {
        aggregate_a(sizes, whole, constant_terms, psi, alpha, delta, e)
    });
}
