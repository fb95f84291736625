// Lists on standard output as their length and a checksum. Each printing call answers how many numbers the list has.
ghost use Rattle.std.specs.Prelude.{◌≡◌, ◌<◌, pos, ◌+ℤ◌, ◌*ℤ◌, length};
ghost use Rattle.integers.specs.Remainder.{emod};
ghost use Rattle.cases.specs.Sums.{checksum};

use crate::printing::print_list;
use residues::range;
use std::io::Stdout;

// The modulus of checksums, 2^31 - 1.
const MODULUS: u64 = 2147483647;

// The longest list whose numbers are printed.
const SHOWN: usize = 1000;

// x modulo the checksums' modulus.
fn residue(x: i32) -> u64
    ensures { result ≡ emod x 2147483647 }
{
    let rest = range::magnitude(x) % MODULUS;
    if x < 0 {
        (MODULUS - rest) % MODULUS
    } else {
        rest
    }
}

// The sum with the number x, counted `times` times, modulo the checksums' modulus.
pub fn with_number(sum: u64, times: u64, x: i32) -> u64
    requires { sum < 2147483647 }
    ensures { result ≡ emod (pos sum +ℤ pos times *ℤ x) 2147483647 }
{
    (sum + times % MODULUS * residue(x)) % MODULUS
}

// The first number once, the second twice, and so on, modulo 2^31 - 1.
fn checksum(xs: &[i32]) -> u64
    ensures { result ≡ checksum xs.now }
{
    let mut sum = 0;
    for (i, x) in xs.iter().enumerate() {
        sum = with_number(sum, i as u64 + 1, *x);
    }
    sum
}

// The length and the checksum of a list, a blank before each.
pub fn print_sum(stdout: Stdout, xs: &[i32]) -> usize
    ensures { result ≡ length xs.now }
{
    let _ = print!(stdout; " {} {}", xs.len(), checksum(xs));
    xs.len()
}

// The same, and after it the numbers of a list that is not too long.
pub fn print_shown(stdout: Stdout, xs: &[i32]) -> usize
    ensures { result ≡ length xs.now }
{
    print_sum(stdout, xs);
    if xs.len() <= SHOWN {
        print_list(stdout, xs);
    }
    xs.len()
}
