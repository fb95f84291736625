// Digits to a base: signed division and remainder.
ghost use Rattle.std.specs.Prelude.{◌≡◌, ◌+◌, ◌*◌, ◌-◌, ◌<◌, ◌≤◌, length, drop, get_or, pos, ◌+ℤ◌, ◌*ℤ◌};
ghost use Rattle.residues.specs.Modulus.{centred};
ghost use Rattle.residues.specs.Digits.{Base, low, rest, split, value};
ghost use Rattle.residues.specs.DigitBlocks.{Peeled};

use crate::modulus::centre;

// So many bases are added to a number before it is divided: it is not negative then, and its quotient stays even or odd.
const BASES_ADDED: i64 = 2147483648;

// What is left of x after its low digit: x divided by the base, rounded to the nearest whole number, a half to the even one. `up` is 1
// where the remainder is above half the base, or is half of it and `down` is odd: there the sum reaches 131072. Elsewhere it is 0.
fn quotient(base: usize, x: i32) -> i32
    requires { Base base }
    ensures { result ≡ rest base x }
{
    let b = base as i64;
    let raised = x as i64 + b * BASES_ADDED;
    let down = (raised / b) as usize;
    let remainder = (raised % b) as usize;
    let up = (2 * remainder + down % 2 + (131071 - base)) / 131072;
    let rounded = (down + up) as i64;
    (rounded - BASES_ADDED) as i32
}

// The low digit of x: x less the base times what is left.
fn low_digit(base: usize, x: i32) -> i32
    requires { Base base }
    ensures { result ≡ low base x }
{
    let left = quotient(base, x) as i64;
    (x as i64 - left * base as i64) as i32
}

// One digit of each number from `from` on, `width` of them: the low digits go to `to` on, what is left stays.
fn peel(base: usize, width: usize, block: &mut [i32], to: usize, from: usize)
    requires base { Base base }
    requires width_bound { (to + width ≤ from) × (from + width ≤ length block.old) }
    ensures { Peeled base to from width block.old block.new }
{
    for i in 0..width {
        let place = from + i;
        let x = block[place];
        block[to + i] = low_digit(base, x);
        block[place] = quotient(base, x);
    }
}

// The digits of `width` numbers, digit by digit: the numbers stand in the last of `count` parts of the block.
pub fn split_digits(base: usize, count: usize, width: usize, block: &mut [i32])
    requires base { Base base }
    requires count_nonzero { (0 < count) × (length block.old ≡ count * width) }
    ensures { block.new ≡ split base count (drop ((count - 1) * width) block.old) }
{
    let last = (count - 1) * width;
    for k in 0..count - 1 {
        peel(base, width, block, k * width, last);
    }
}

// One step of Horner's rule, modulo q.
pub fn fold_digit(acc: i32, base: usize, x: i32) -> i32
    requires { Base base }
    ensures { result ≡ centred (acc *ℤ pos base +ℤ x) }
{
    centre(acc as i64 * base as i64 + x as i64)
}

// The number modulo q whose digits stand `width` apart, the lowest at `at`.
pub fn recompose_number(base: usize, count: usize, width: usize, digits: &[i32], at: usize) -> i32
    requires base { Base base }
    requires count_nonzero { (0 < count) × (at + (count - 1) * width < length digits.now) }
    ensures { result ≡ centred (value base count (λ e. get_or digits.now (at + e * width) (pos 0))) }
{
    let mut acc: i32 = 0;
    for left in (0..count).rev() {
        acc = fold_digit(acc, base, digits[at + left * width]);
    }
    acc
}
