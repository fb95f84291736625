// The blocks of a constraint's coefficients over the opening (z, t, g and h), each written from element `at` on.
ghost use Rattle.std.specs.Prelude.{◌≡◌, ◌+◌, ◌*◌, ◌^◌, ◌≤◌, length, pos};
ghost use Rattle.integers.specs.Lists.{tab};
ghost use Rattle.integers.specs.Over.{over};
ghost use Rattle.integers.specs.Flat.{flat};
ghost use Rattle.algebra.specs.Triangle.{pair};
ghost use Rattle.residues.specs.Modulus.{centred};
ghost use Rattle.residues.specs.Digits.{Base};
ghost use Rattle.ring.specs.Element.{R, Degree, el, array, number};
ghost use Rattle.fold.specs.Sizes.{pairs, garbage_size};
ghost use Rattle.fold.specs.Messages.{elements};
ghost use Rattle.fold.specs.NextInstance.{z_table, t_table, garbage_table};
ghost use Rattle.fold.specs.NextInstance as spec;
ghost use Rattle.next_constraints.specs.Blocks.{numbers, digit_row};
ghost use Rattle.fold.specs.Limits.{most_parts, most_digits};

use crate::elements::{write_blocks, write_each};
use fold::counts::pair_count;
use residues::digits;
use ring::element::Element;

// base^e modulo q: at base 65536 the square is 99.
pub fn power(base: usize, e: usize) -> i32
    requires { Base base }
    ensures { result ≡ centred (pos (base ^ e)) }
{
    let mut power = 1;
    for _ in 0..e {
        power = digits::fold_digit(power, base, 0);
    }
    power
}

pub fn write_zeros(d: usize, count: usize, out: &mut [i32], at: usize)
    requires degree { Degree d }
    requires d_in_bounds { (at + count) * d ≤ length out.old }
    ensures { out.new ≡ over out.old (at * d) (elements d count (λ _. (R d).zero)) }
{
    write_each(d, count, out, at, |_| Element::additive_identity());
}

// Element i of a list, times a number.
fn weighted(d: usize, weight: i32, xs: &[i32], i: usize) -> Element
    requires degree { Degree d }
    requires d_in_bounds { i * d + d ≤ length xs.now }
    ensures { result.coefficients ≡ array d ((R d).mul (number d weight) (el d xs.now i)) }
{
    Element::from_slice(d, xs, i).scale(d, weight)
}

// `count` elements of a list from element `from` on, times a number.
pub fn write_row(
    d: usize,
    count: usize,
    weight: i32,
    xs: &[i32],
    from: usize,
    out: &mut [i32],
    at: usize,
)
    requires degree { Degree d }
    requires d_in_bounds { ((from + count) * d ≤ length xs.now) × ((at + count) * d ≤ length out.old) }
    ensures { out.new ≡ over out.old (at * d)
        (elements d count (λ k. (R d).mul (number d weight) (el d xs.now (from + k)))) }
{
    write_each(d, count, out, at, |k| weighted(d, weight, xs, from + k));
}

// Row k of a matrix with m columns.
pub fn write_matrix_row(d: usize, m: usize, xs: &[i32], k: usize, out: &mut [i32], at: usize)
    requires degree { Degree d }
    requires d_in_bounds { ((k * m + m) * d ≤ length xs.now) × ((at + m) * d ≤ length out.old) }
    ensures { out.new ≡ over out.old (at * d) (numbers d (tab m (λ y. el d xs.now (k * m + y)))) }
{
    write_row(d, m, 1, xs, k * m, out, at);
}

// On digit e of z: the n elements from element `from` on, times b^e.
fn write_z_digit(
    d: usize,
    n: usize,
    b: usize,
    e: usize,
    xs: &[i32],
    from: usize,
    out: &mut [i32],
    at: usize,
)
    requires degree { Degree d }
    requires base { Base b }
    requires d_in_bounds { ((from + n) * d ≤ length xs.now) × ((at + n) * d ≤ length out.old) }
    ensures { out.new ≡ over out.old (at * d)
        (numbers d (tab n (λ k. (R d).mul (spec.power d b e) (el d xs.now (from + k))))) }
{
    write_row(d, n, power(b, e), xs, from, out, at);
}

// On z: for each digit e of tz, the n elements from element `from` on, times b^e.
pub fn write_z(
    d: usize,
    n: usize,
    tz: usize,
    b: usize,
    xs: &[i32],
    from: usize,
    out: &mut [i32],
    at: usize,
)
    requires degree { Degree d }
    requires base { Base b }
    requires d_in_bounds { ((from + n) * d ≤ length xs.now) × ((at + tz * n) * d ≤ length out.old) }
    ensures { out.new ≡ over out.old (at * d) (numbers d (z_table d n tz b (λ k. el d xs.now (from + k)))) }
{
    write_blocks(d, tz, n, out, at, |e, place, out| {
        write_z_digit(d, n, b, e, xs, from, out, place)
    });
}

// How the digits of an element stand: `count` of them to a base, each in row `row` of `rows`, the other rows zero.
#[derive(Clone, Copy)]
pub struct Digits {
    pub base: usize,
    pub count: usize,
    pub rows: usize,
    pub row: usize,
}

// Row j of digit e of element i: base^e times the element.
fn digit_entry(d: usize, digits: Digits, xs: &[i32], i: usize, e: usize, j: usize) -> Element
    requires degree { Degree d }
    requires base { Base digits.base }
    requires d_in_bounds { i * d + d ≤ length xs.now }
    ensures { result.coefficients ≡ array d (digit_row d digits xs.now i e j) }
{
    if j == digits.row {
        weighted(d, power(digits.base, e), xs, i)
    } else {
        Element::additive_identity()
    }
}

// All digits of element i.
fn write_digits(d: usize, digits: Digits, xs: &[i32], i: usize, out: &mut [i32], at: usize)
    requires degree { Degree d }
    requires base { Base digits.base }
    requires d_in_bounds { (i * d + d ≤ length xs.now) × ((at + digits.count * digits.rows) * d ≤ length out.old) }
    ensures { out.new ≡ over out.old (at * d)
        (numbers d (flat digits.count (λ e. tab digits.rows (digit_row d digits xs.now i e)))) }
{
    write_blocks(d, digits.count, digits.rows, out, at, |e, place, out| {
        write_each(
            d,
            digits.rows,
            out,
            place,
            |j| digit_entry(d, digits, xs, i, e, j),
        );
    });
}

// The digits of the first m elements of a list.
pub fn write_parts(d: usize, digits: Digits, m: usize, xs: &[i32], out: &mut [i32], at: usize)
    requires degree { Degree d }
    requires base { Base digits.base }
    requires rows_bound { digits.count * digits.rows ≤ 64 }
    requires d_in_bounds { (m * d ≤ length xs.now) × ((at + m * (digits.count * digits.rows)) * d ≤ length out.old) }
    ensures { out.new ≡ over out.old (at * d) (numbers d (t_table d m digits.rows digits.count (digit_row d digits xs.now))) }
{
    let size = digits.count * digits.rows;
    write_blocks(d, m, size, out, at, |i, place, out| {
        write_digits(d, digits, xs, i, out, place);
    });
}

// On g or h: the elements of a list by pair, each with t digits.
pub fn write_garbage(
    d: usize,
    r: usize,
    base: usize,
    t: usize,
    xs: &[i32],
    out: &mut [i32],
    at: usize,
)
    requires degree { Degree d }
    requires base { Base base }
    requires r_le_most_parts { (r ≤ most_parts) × (t ≤ most_digits) }
    requires d_in_bounds { (pairs r * d ≤ length xs.now) × ((at + garbage_size r t) * d ≤ length out.old) }
    ensures { out.new ≡ over out.old (at * d)
        (numbers d (garbage_table d r base t (λ i j. el d xs.now (pair r i j)))) }
{
    let digits = Digits {
        base,
        count: t,
        rows: 1,
        row: 0,
    };
    write_parts(d, digits, pair_count(r), xs, out, at);
}
