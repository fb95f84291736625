// The operations whose result is one number; yes is 1 and no is 0.
ghost use Rattle.std.specs.Prelude.{◌≡◌, ◌∷◌, [], ◌<◌, length};
ghost use Rattle.ring_cases.specs.Results.{recomposed_at, constant_at, value_of, Results};

use crate::input::{base_at, count_at, degree_at};
use crate::tests::test_of;
use cases::lists::past_numbers;
use cases::numbers::wide_at;
use residues::{digits, modulus};
use ring::element::Element;

// Operation 11: `B t digits[t]`.
fn recomposed(xs: &[i32]) -> i32
    requires { length xs.now ≡ 2048 }
    ensures { result ≡ recomposed_at xs.now }
{
    let base = base_at(xs, 1);
    let count = count_at(xs, 2);
    digits::recompose_number(base, count, 1, xs, 3)
}

// Operation 18: `d a[d]`.
fn constant(xs: &[i32]) -> i32
    requires { length xs.now ≡ 2048 }
    ensures { result ≡ constant_at xs.now }
{
    let d = degree_at(xs);
    Element::from_slice(d, past_numbers(xs, 2), 0).constant_term()
}

// Operation 1 besides: `x`.
fn value_of(operation: usize, xs: &[i32], wides: &[i64]) -> i32
    requires { length xs.now ≡ 2048 }
    ensures { result ≡ value_of operation xs.now wides.now }
{
    match operation {
        1 => modulus::centre(wide_at(wides, 1)),
        11 => recomposed(xs),
        18 => constant(xs),
        _ => i32::from(test_of(operation, xs, wides)),
    }
}

// One number as the results.
fn write_one(x: i32, out: &mut [i32]) -> usize
    requires { 0 < length out.old }
    ensures { Results (x ∷ []) out.old out.new result }
{
    out[0] = x;
    1
}

pub fn write_value(operation: usize, xs: &[i32], wides: &[i64], out: &mut [i32]) -> usize
    requires { (length xs.now ≡ 2048) × (length out.old ≡ 512) }
    ensures { Results (value_of operation xs.now wides.now ∷ []) out.old out.new result }
{
    write_one(value_of(operation, xs, wides), out)
}
