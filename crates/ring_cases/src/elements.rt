// The operations whose result is a ring element. A case is its operation, its degree d, and its arguments.
ghost use Rattle.std.specs.Prelude.{◌≡◌, length};
ghost use Rattle.ring.specs.Element.{Degree, array, lift};
ghost use Rattle.ring_cases.specs.Input.{degree_at};
ghost use Rattle.ring_cases.specs.Results.{is_two, of_one, of_two, one_at, two_at, scaled_at, inner_at, element_of, element_numbers, Results};

use crate::input::degree_at;
use cases::lists::past_numbers;
use cases::numbers::{number_at, size};
use ring::element::Element;
use ring::product;

fn of_one(operation: usize, d: usize, a: Element) -> Element
    requires { Degree d }
    ensures { result.coefficients ≡ array d (of_one operation d (lift d a.coefficients)) }
{
    match operation {
        4 => a.negation(d),
        6 => a.conjugate(d),
        _ => a.half(d),
    }
}

fn of_two(operation: usize, d: usize, a: Element, b: Element) -> Element
    requires { Degree d }
    ensures { result.coefficients ≡ array d (of_two operation d (lift d a.coefficients) (lift d b.coefficients)) }
{
    match operation {
        2 => a.sum(d, b),
        3 => a.difference(d, b),
        _ => a.product(d, b),
    }
}

// Operations 4, 6 and 8: `d a[d]`.
fn one(operation: usize, d: usize, xs: &[i32]) -> Element
    requires degree { Degree d }
    requires xs_len { length xs.now ≡ 2048 }
    ensures { result.coefficients ≡ array d (one_at operation d xs.now) }
{
    of_one(operation, d, Element::from_slice(d, past_numbers(xs, 2), 0))
}

// Operations 2, 3 and 5: `d a[d] b[d]`.
fn two(operation: usize, d: usize, xs: &[i32]) -> Element
    requires degree { Degree d }
    requires xs_len { length xs.now ≡ 2048 }
    ensures { result.coefficients ≡ array d (two_at operation d xs.now) }
{
    let both = past_numbers(xs, 2);
    let a = Element::from_slice(d, both, 0);
    let b = Element::from_slice(d, both, 1);
    of_two(operation, d, a, b)
}

// Operation 7: `d c a[d]`.
fn scaled(d: usize, xs: &[i32]) -> Element
    requires degree { Degree d }
    requires xs_len { length xs.now ≡ 2048 }
    ensures { result.coefficients ≡ array d (scaled_at d xs.now) }
{
    let a = Element::from_slice(d, past_numbers(xs, 3), 0);
    a.scale(d, number_at(xs, 2))
}

// Operation 12: `d n u[n*d] v[n*d]`.
fn inner(d: usize, xs: &[i32]) -> Element
    requires degree { Degree d }
    requires xs_len { length xs.now ≡ 2048 }
    ensures { result.coefficients ≡ array d (inner_at d xs.now) }
{
    let n = size(xs, 2, 8);
    let both = past_numbers(xs, 3);
    Element {
        coefficients: product::inner(d, n, both, 0, both, n),
    }
}

fn is_two(operation: usize) -> bool
    ensures { result ≡ is_two operation }
{
    (operation == 2) | (operation == 3) | (operation == 5)
}

fn element_of(operation: usize, d: usize, xs: &[i32]) -> Element
    requires degree { Degree d }
    requires xs_len { length xs.now ≡ 2048 }
    ensures { result.coefficients ≡ array d (element_of operation d xs.now) }
{
    match operation {
        7 => scaled(d, xs),
        12 => inner(d, xs),
        _ if is_two(operation) => two(operation, d, xs),
        _ => one(operation, d, xs),
    }
}

// The numbers of the result, and how many they are.
pub fn write_element(operation: usize, xs: &[i32], out: &mut [i32]) -> usize
    requires { (length xs.now ≡ 2048) × (length out.old ≡ 512) }
    ensures { Results (element_numbers operation xs.now) out.old out.new result }
{
    let d = degree_at(xs);
    element_of(operation, d, xs).store(d, out, 0);
    d
}
