// The cases one after another.
ghost use Rattle.cases.specs.Text.{Lines};
ghost use Rattle.next_cases.specs.Runs.{CaseRun, LineRun};

use crate::{input, instance, part, twice};
use cases::input::size_at;
use cases::{lines, lists, numbers, text};
use std::io::{Stdin, Stdout};

// The most numbers that a case has.
const NUMBERS: usize = 4096;

// A case of this kind: all its numbers, with all their bits and with 32. It answers the number of the last answer; 0 where the kind is none.
fn run_case(stdout: Stdout, kind: usize, one_digit: u8, wides: &[i64], xs: &[i32]) -> u64
    ensures { CaseRun wides.now xs.now kind one_digit result }
{
    let sizes = input::read_sizes(lists::past_wides(wides, input::SIZES), one_digit);
    let nu = size_at(wides, input::NU);
    let mu = size_at(wides, input::MU);
    match kind {
        1 => instance::run_instance(stdout, sizes, nu, mu, xs).number,
        2 => u64::from(part::run_part(stdout, sizes, nu, mu, size_at(wides, input::LISTS), xs)),
        3 => twice::run_twice(stdout, sizes, nu, mu, wides, xs).number,
        _ => 0,
    }
}

// The case of one line.
fn run_line(stdout: Stdout, line: &[u8]) -> u64
    ensures { LineRun line.now result }
{
    let mut wides = [0; NUMBERS];
    let mut words = [0; NUMBERS];
    text::numbers_of(line, &mut wides, &mut words);
    let number = numbers::size(&words, 0, 6);
    let kind = numbers::two_digits(input::LAST, input::ONE_DIGIT, number);
    let one_digit = numbers::one_digit(input::LAST, number);
    run_case(stdout, kind, one_digit, &wides, &words)
}

// Reads a text into the buffer and runs its lines; the answer is how many there are.
pub fn run_text(stdin: Stdin, stdout: Stdout, buffer: &mut [u8]) -> usize
    ensures { Lines buffer.new result }
{
    lines::run_text(stdin, stdout, buffer, |line| {
        run_line(stdout, line);
    })
}
