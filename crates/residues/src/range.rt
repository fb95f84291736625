// The tests of refusals 8, 9, 10 and 15 on slices.
ghost use Rattle.std.specs.Prelude.{◌≡◌, nat_abs};
ghost use Rattle.residues.specs.Digits.{Base};
ghost use Rattle.residues.specs.Range.{between, all_between, coefficients, projection_entries, count_of, counted_challenge, short_challenge, challenge, all_narrow};

use crate::length::compare;

// The absolute value. `wide >> 63` is -1 where x is negative and 0 elsewhere.
pub fn magnitude(x: i32) -> u64
    ensures { result ≡ nat_abs x }
{
    let wide = x as i64;
    let sign = wide >> 63;
    let turned = wide ^ sign;
    (turned - sign) as u64
}

// Whether x lies from low to high.
#[tactic(auto, unfolding(crate::specs::Range::between))]
fn is_between(low: i32, high: i32, x: i32) -> bool
    ensures { result ≡ between low high x }
{
    !(x < low) & !(high < x)
}

// Every number of xs lies from low to high. All are looked at, so that several can be tested at a time.
pub fn all_between(low: i32, high: i32, xs: &[i32]) -> bool
    ensures { result ≡ all_between low high xs.now }
{
    let mut all = true;
    for x in xs {
        all &= is_between(low, high, *x);
    }
    all
}

// Every number of xs is in coefficient range.
pub fn are_coefficients(xs: &[i32]) -> bool
    ensures { result ≡ coefficients xs.now }
{
    all_between(-2147483598, 2147483598, xs)
}

// Every number of xs is -1, 0 or 1.
pub fn are_projection_entries(xs: &[i32]) -> bool
    ensures { result ≡ projection_entries xs.now }
{
    all_between(-1, 1, xs)
}

// How many numbers of xs have the absolute value a.
fn count_of(a: u64, xs: &[i32]) -> usize
    ensures { result ≡ count_of a xs.now }
{
    xs.iter().filter(|x| magnitude(**x) == a).count()
}

// xs passes the rule of degree 64: 23 zeros, 31 of ±1, 10 of ±2.
fn is_counted_challenge(xs: &[i32]) -> bool
    ensures { result ≡ counted_challenge xs.now }
{
    let zeros = count_of(0, xs) == 23;
    let ones = count_of(1, xs) == 31;
    let twos = count_of(2, xs) == 10;
    zeros & ones & twos
}

// xs passes the rule of the smaller degrees.
fn is_short_challenge(xs: &[i32]) -> bool
    ensures { result ≡ short_challenge xs.now }
{
    let small = all_between(-2, 2, xs);
    let short = compare(71, xs).is_some();
    small & short
}

// xs, the d numbers of one ring element, passes the challenge rule of its degree.
pub fn is_challenge(xs: &[i32]) -> bool
    ensures { result ≡ challenge xs.now }
{
    if xs.len() == 64 {
        return is_counted_challenge(xs);
    }
    is_short_challenge(xs)
}

// No number of xs has an absolute value of more than half the base. Numbers are whole: for an odd base, half of the number below it is the most.
pub fn are_narrow(base: usize, xs: &[i32]) -> bool
    requires { Base base }
    ensures { result ≡ all_narrow base xs.now }
{
    let half = (base / 2) as i32;
    all_between(-half, half, xs)
}
