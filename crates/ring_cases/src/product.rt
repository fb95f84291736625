// The product under the name that C uses.
ghost use Rattle.std.specs.Prelude.{◌≡◌, min, pos, length};
ghost use Rattle.cases.specs.Numbers.{padded};
ghost use Rattle.ring_cases.specs.Results.{product_at, product_numbers, Results};

use capi::types::{CElement, CProduct};
use cases::lists::{past_numbers, put};
use cases::numbers::{natural, wide_at};

// The first sixty-four numbers of a list.
fn element(xs: &[i32]) -> CElement
    ensures { result.coefficients ≡ padded 64 xs.now }
{
    let mut numbers = [0i32; 64];
    put(&mut numbers, 0, xs, 64);
    CElement {
        coefficients: numbers,
    }
}

// Operation 19: `d x[64] y[64]`.
fn product(xs: &[i32], wides: &[i64]) -> CProduct
    ensures { result ≡ product_at xs.now wides.now }
{
    let d = natural(wide_at(wides, 1)) as usize;
    capi::multiply::lizkarg_multiply(
        d,
        element(past_numbers(xs, 2)),
        element(past_numbers(xs, 66)),
    )
}

// A number, at most the largest of 32 bits.
fn capped(x: u64) -> i32
    ensures { result ≡ pos (min x 2147483647) }
{
    i32::try_from(x).unwrap_or(i32::MAX)
}

// The answer's kind and number, and then the sixty-four numbers of the element.
pub fn write_product(xs: &[i32], wides: &[i64], out: &mut [i32]) -> usize
    requires { length out.old ≡ 512 }
    ensures { Results (product_numbers (product_at xs.now wides.now)) out.old out.new result }
{
    let answer = product(xs, wides);
    put(out, 0, &[i32::from(answer.kind), capped(answer.number)], 2);
    put(out, 2, &answer.element.coefficients, 64)
}
