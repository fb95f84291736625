// Kind 2, one part of the next witness.
ghost use Rattle.std.specs.Prelude.{◌≡◌, ◌+◌, ◌≤◌, length, take, drop};
ghost use Rattle.fold.specs.Arguments.{part_refusal_of, next_part_of};
ghost use Rattle.capi.specs.Codes.{part_sizes_from};
ghost use Rattle.cases.specs.Lists.{nth_list};
ghost use Rattle.next_cases.specs.Input.{part_sizes_of};

use capi::next::{CPart, lizkarg_next_part, lizkarg_next_part_refusal};
use capi::sizes::{CPartSizes, CSizes};
use cases::lists::{nth_list, past_numbers};
use cases::printing::print_decimal;
use cases::sums::print_shown;
use std::io::Stdout;

// Where the opening stands, after the part's number.
const OPENING: usize = 20;

// The sizes of an opening and of its cut.
pub fn part_sizes(sizes: CSizes, nu: usize, mu: usize) -> CPartSizes
    ensures { result ≡ part_sizes_of sizes nu mu }
{
    CPartSizes {
        shape: sizes.shape,
        kappa: sizes.kappa,
        t1: sizes.t1,
        t2: sizes.t2,
        nu,
        mu,
        one_digit: sizes.one_digit,
    }
}

// The numbers of the opening at a place.
fn at_place(opening: &[i32], place: CPart) -> &[i32]
    requires { place.start + place.length ≤ length opening.now }
    ensures { result.now ≡ take place.length (drop place.start opening.now) }
{
    let start = place.start;
    let end = start + place.length;
    &opening[start..end]
}

// A part of the next witness; empty where it is refused.
pub fn next_part(sizes: CPartSizes, part: usize, opening: &[i32]) -> &[i32]
    ensures { result.now ≡ next_part_of (part_sizes_from sizes) part opening.now }
{
    let place = lizkarg_next_part(sizes, part, opening);
    at_place(opening, place)
}

// The number with which a part is refused, which is printed, and the part.
fn print_part(stdout: Stdout, sizes: CPartSizes, part: usize, opening: &[i32]) -> u8
    ensures { result ≡ part_refusal_of (part_sizes_from sizes) part opening.now }
{
    let refusal = lizkarg_next_part_refusal(sizes, part, opening);
    print_decimal(stdout, refusal as u64);
    print_shown(stdout, next_part(sizes, part, opening));
    refusal
}

// The opening follows the part's number.
pub fn run_part(stdout: Stdout, sizes: CSizes, nu: usize, mu: usize, part: usize, xs: &[i32]) -> u8
    ensures { result ≡ part_refusal_of (part_sizes_from (part_sizes_of sizes nu mu)) part (nth_list 0 (drop 20 xs.now)) }
{
    let opening = nth_list(past_numbers(xs, OPENING), 0);
    print_part(stdout, part_sizes(sizes, nu, mu), part, opening)
}
