// The operations on digits.
ghost use Rattle.std.specs.Prelude.{◌≡◌, ◌*◌, ◌-◌, ◌<◌, ◌≤◌, length, drop};
ghost use Rattle.residues.specs.Digits.{Base, split};
ghost use Rattle.ring_cases.specs.Results.{number_digits, element_digits, Results};

use crate::input::{base_at, count_at, degree_at};
use cases::lists::past_numbers;
use cases::numbers::number_at;
use residues::digits;
use ring::element::Element;

// Operation 9: `B t x`, the lowest digit first.
pub fn write_number_digits(xs: &[i32], out: &mut [i32]) -> usize
    requires { (length xs.now ≡ 2048) × (length out.old ≡ 512) }
    ensures { Results (number_digits xs.now) out.old out.new result }
{
    let base = base_at(xs, 1);
    let count = count_at(xs, 2);
    out[count - 1] = number_at(xs, 3);
    digits::split_digits(base, count, 1, &mut out[0..count]);
    count
}

// Operation 10: `d B t a[d]`, the lowest digit's numbers first.
pub fn write_element_digits(xs: &[i32], out: &mut [i32]) -> usize
    requires { (length xs.now ≡ 2048) × (length out.old ≡ 512) }
    ensures { Results (element_digits xs.now) out.old out.new result }
{
    let d = degree_at(xs);
    let base = base_at(xs, 2);
    let count = count_at(xs, 3);
    let all = count * d;
    let a = Element::from_slice(d, past_numbers(xs, 4), 0);
    a.store(d, out, count - 1);
    digits::split_digits(base, count, d, &mut out[0..all]);
    all
}
