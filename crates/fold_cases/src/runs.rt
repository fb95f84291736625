// The cases one after another.
ghost use Rattle.std.specs.Prelude.{◌≡◌};
ghost use Rattle.capi.specs.Codes.{code_of};
ghost use Rattle.cases.specs.Text.{Lines};
ghost use Rattle.fold_cases.specs.Answers.{call_answer, case_answer, line_answer};

use crate::{input, messages, verification};
use capi::sizes::CSizes;
use capi::types::CAnswer;
use cases::lists::past_numbers;
use cases::{lines, numbers, text};
use std::io::{Stdin, Stdout};

// A call by its number: every other than 1 to 5 is the verifier's.
fn run_call(stdout: Stdout, call: usize, sizes: CSizes, lists: &[i32]) -> CAnswer
    ensures { result ≡ code_of (call_answer call sizes lists.now) }
{
    match call {
        1 => messages::run_commit(stdout, sizes, lists),
        2 => messages::run_project(stdout, sizes, lists),
        3 => messages::run_aggregate(stdout, sizes, lists),
        4 => messages::run_commit_garbage(stdout, sizes, lists),
        5 => messages::run_amortize(stdout, sizes, lists),
        _ => verification::run_verify(stdout, sizes, lists),
    }
}

// One case: its numbers, with all their bits and as numbers of 32 bits.
fn run_case(stdout: Stdout, wides: &[i64], words: &[i32]) -> CAnswer
    ensures { result ≡ code_of (case_answer wides.now words.now) }
{
    let number = numbers::size(words, 0, 8);
    let call = numbers::two_digits(input::LAST, input::ONE_DIGIT, number);
    let one_digit = numbers::one_digit(input::LAST, number);
    let sizes = input::read_sizes(wides, one_digit);
    run_call(stdout, call, sizes, past_numbers(words, input::LISTS))
}

// The case of one line.
fn run_line(stdout: Stdout, line: &[u8]) -> CAnswer
    ensures { result ≡ code_of (line_answer line.now) }
{
    let mut wides = [0; 16384];
    let mut words = [0; 16384];
    text::numbers_of(line, &mut wides, &mut words);
    run_case(stdout, &wides, &words)
}

// Reads a text into the buffer and runs its lines; the answer is how many there are.
pub fn run_text(stdin: Stdin, stdout: Stdout, buffer: &mut [u8]) -> usize
    ensures { Lines buffer.new result }
{
    lines::run_text(stdin, stdout, buffer, |line| {
        run_line(stdout, line);
    })
}
