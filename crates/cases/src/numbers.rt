// The numbers of a case, and what they stand for. Where a number is missing it counts as 0.
ghost use Rattle.std.specs.Prelude.{◌≡◌, map, pos, length, get_or, ◌≤◌};
ghost use Rattle.integers.specs.Laws.Bridge.{P};
ghost use Rattle.std.specs.Int.{w64};
ghost use Rattle.std.proofs.Common.{of_z};
ghost use Rattle.cases.specs.Numbers.{word, size_at, two_digits, one_digit};

// The nearest number of 32 bits.
pub fn word(x: i64) -> i32
    ensures { result ≡ word x }
{
    x.clamp(i64::from(i32::MIN), i64::from(i32::MAX)) as i32
}

// Each number of a list as one of 32 bits.
pub fn narrow(wides: &[i64], words: &mut [i32])
    requires { length wides.now ≡ length words.old }
    ensures { words.new ≡ map word wides.now }
{
    for (i, narrow) in words.iter_mut().enumerate() {
        *narrow = word(wides[i]);
    }
}

// The number at a place.
pub fn number_at(xs: &[i32], place: usize) -> i32
    ensures { result ≡ get_or xs.now place (pos 0) }
{
    xs.get(place).copied().unwrap_or(0)
}

// The same with all its bits.
pub fn wide_at(xs: &[i64], place: usize) -> i64
    ensures { result ≡ get_or xs.now place (pos 0) }
{
    xs.get(place).copied().unwrap_or(0)
}

// The number at a place as a size of at most `most`; 0 where it is not.
pub fn size(xs: &[i32], place: usize, most: usize) -> usize
    ensures { result ≡ size_at most xs.now place }
{
    match usize::try_from(number_at(xs, place)) {
        Ok(number) if number <= most => number,
        _ => 0,
    }
}

// The number itself; 0 where it is negative.
pub fn natural(x: i64) -> u64
    ensures { result ≡ P x }
{
    u64::try_from(x).unwrap_or(0)
}

// The number modulo 2^64.
pub fn wrapped(x: i64) -> u64
    ensures { result ≡ of_z w64 x }
{
    x.cast_unsigned()
}

// A case past the last number is that of a case `back` numbers before it, with z in one digit.
pub fn two_digits(last: usize, back: usize, number: usize) -> usize
    requires { back ≤ last }
    ensures { result ≡ two_digits last back number }
{
    if last < number { number - back } else { number }
}

pub fn one_digit(last: usize, number: usize) -> u8
    ensures { result ≡ one_digit last number }
{
    u8::from(last < number)
}
