// Judges the sheets of a corpus: standard input has a line with the number of cases, then for each case a line with its number of bytes,
// the bytes, and a line feed. Standard output gets the line of each verdict. The numbers stand in 16 columns, as on a sheet.
#![tactic(auto)]

ghost use Rattle.std.specs.Prelude.{◌≡◌, ◌≤◌};
ghost use Rattle.judge.specs.Judging.{judged_text, verdict_line};

use cases::corpus::{read_case, read_number};
use std::io::{Stdin, Stdout};

// Most cases.
const CASES: usize = 100000;

// Most bytes of a case: one more than a sheet may have.
const BYTES: usize = 65537;

// The line of the verdict on a case.
fn case_line(case: &[u8]) -> [u8; 33]
    ensures { result ≡ verdict_line (judged_text case.now) }
{
    judge::judged_line(case)
}

// Reads a case and prints the line of its verdict; false where the case is cut off or printing fails.
fn run_case(stdin: Stdin, stdout: Stdout, text: &mut [u8]) -> bool {
    let count = read_number(stdin, BYTES);
    match read_case(stdin, text, count) {
        Some(case) => stdout.write_all(&case_line(case)).is_ok(),
        None => false,
    }
}

// Runs cases until one fails, and answers how many it ran.
fn run_cases(stdin: Stdin, stdout: Stdout, text: &mut [u8], cases: usize) -> usize
    ensures { result ≤ cases }
{
    for i in 0..cases {
        if !run_case(stdin, stdout, text) {
            return i;
        }
    }
    cases
}

fn main(rt: HostRuntime) {
    let stdin = rt.stdin();
    let stdout = rt.stdout();
    let mut text = [0; 65538];
    let cases = read_number(stdin, CASES);
    run_cases(stdin, stdout, &mut text, cases);
}
