// Elements x_ij for i ≤ j, by i and then j: the products g_ij of message 1, and the digits of such elements, g of message 1
// and h of message 4.
ghost use Rattle.std.specs.Prelude.{◌≡◌, ◌+◌, ◌-◌, ◌*◌, ◌<◌, ◌≤◌, length};
ghost use Rattle.integers.specs.Over.{over};
ghost use Rattle.integers.specs.Flat.{flat};
ghost use Rattle.algebra.specs.Triangle.{pair};
ghost use Rattle.ring.specs.Element.{Degree, el, coeffs};
ghost use Rattle.residues.specs.Digits.{Base, split};
ghost use Rattle.fold.specs.Sizes.{pairs, garbage_size};
ghost use Rattle.fold.specs.Messages.{elements, g, garbage_digits};
ghost use Rattle.fold.specs.PairElements.{pair_elements};
ghost use Rattle.fold.specs.Limits.{most_parts, most_rank, most_digits};

use fold::counts::pair_count;
use residues::digits::split_digits;
use ring::element::Element;
use ring::product::inner;

// The products of part i with the parts from i on, written from element `at` on.
fn write_pair_row(
    d: usize,
    n: usize,
    r: usize,
    witness: &[i32],
    i: usize,
    out: &mut [i32],
    at: usize,
)
    requires degree { Degree d }
    requires n_le_most_rank { (n ≤ most_rank) × (i ≤ r) × (r * n * d ≤ length witness.now) × ((at + (r - i)) * d ≤ length out.old) }
    ensures { out.new ≡ over out.old (at * d) (elements d (r - i) (λ k. g d n witness.now i (i + k))) }
{
    for k in 0..r - i {
        let product = Element {
            coefficients: inner(d, n, witness, i * n, witness, (i + k) * n),
        };
        product.store(d, out, at + k);
    }
}

// The products g_ij = <s_i, s_j> for i ≤ j, as the first elements of `out`.
pub fn write_pair_products(d: usize, n: usize, r: usize, witness: &[i32], out: &mut [i32])
    requires degree { Degree d }
    requires n_le_most_rank { (n ≤ most_rank) × (r * n * d ≤ length witness.now) × (pairs r * d ≤ length out.old) }
    ensures { out.new ≡ over out.old 0 (pair_elements d r (g d n witness.now)) }
{
    let mut at = 0;
    for i in 0..r {
        write_pair_row(d, n, r, witness, i, out, at);
        at += r - i;
    }
}

// The digits of element e of `values`, in a block of t elements.
fn write_element_digits(
    d: usize,
    base: usize,
    t: usize,
    values: &[i32],
    e: usize,
    block: &mut [i32],
)
    requires degree { Degree d }
    requires base { Base base }
    requires t_nonzero { (0 < t) × (e * d + d ≤ length values.now) × (length block.old ≡ t * d) }
    ensures { block.new ≡ split base t (coeffs d (el d values.now e)) }
{
    Element::from_slice(d, values, e).store(d, block, t - 1);
    split_digits(base, t, d, block);
}

// The digits of the first `count` elements of `values`, one element after the other.
pub fn write_digits(d: usize, base: usize, t: usize, count: usize, values: &[i32], out: &mut [i32])
    requires degree { Degree d }
    requires base { Base base }
    requires t_nonzero { (0 < t) × (t ≤ most_digits) × (count * d ≤ length values.now) × (length out.old ≡ count * (t * d)) }
    ensures { out.new ≡ flat count (λ e. split base t (coeffs d (el d values.now e))) }
{
    let width = t * d;
    for e in 0..count {
        let at = e * width;
        write_element_digits(d, base, t, values, e, &mut out[at..at + width]);
    }
}

// The digits of the elements of pairs that `values` holds: by i, then j, then digit.
pub fn write_garbage_digits(
    d: usize,
    r: usize,
    base: usize,
    t: usize,
    values: &[i32],
    out: &mut [i32],
)
    requires degree { Degree d }
    requires base { Base base }
    requires r_le_most_parts { (r ≤ most_parts) × (0 < t) × (t ≤ most_digits) × (pairs r * d ≤ length values.now) × (length out.old ≡ garbage_size r t * d) }
    ensures { out.new ≡ garbage_digits d r base t (λ i j. el d values.now (pair r i j)) }
{
    write_digits(d, base, t, pair_count(r), values, out);
}
