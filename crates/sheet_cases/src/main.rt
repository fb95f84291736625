// Reads the sheets of a corpus through the calls for C, and then writes sheets. Standard input has a line with the number of cases, then for each
// case a line with its number of bytes, the bytes, and a line feed; these numbers stand in 16 columns, as on a sheet. Standard output gets five
// lines for each case: how many numbers the sheet holds; three times what the reader answers, with a slice of one number less than that, of as
// many, and of one more; and what the judge answers. The cases of the writer follow: src/writer_cases.rt.
#![tactic(auto)]

ghost use Rattle.std.specs.Prelude.{◌≡◌, ◌≤◌};

use capi::types::CHeader;
use cases::corpus::{read_case, read_number};
use cases::printing::{print_answer, print_decimal, print_line_end};
use cases::sums::print_shown;
use std::io::{Stdin, Stdout};

mod writer_cases;

// Most cases.
const CASES: usize = 1000;

// Most bytes of a case: one more than a sheet may have for the judge.
const BYTES: usize = 65537;

// Most numbers that are lent to the reader.
const NUMBERS: usize = 8192;

// A number, with a blank before it.
fn print_number(stdout: Stdout, x: u64) -> u64
    ensures { result ≡ x }
{
    let _ = print!(stdout; " {x}");
    x
}

fn print_header(stdout: Stdout, h: CHeader) -> u64
    ensures { result ≡ h.target }
{
    let sizes = [
        h.d, h.n, h.r, h.k, h.l, h.w, h.kappa, h.kappa1, h.kappa2, h.b, h.b1, h.b2, h.t1, h.t2,
        h.nu, h.mu,
    ];
    for size in sizes {
        print_number(stdout, size as u64);
    }
    print_number(stdout, h.bound);
    print_number(stdout, h.target)
}

// Reads a text into a slice of `count` numbers, each 77 before, and prints the answer, the header and the slice afterwards.
fn run_reader(stdout: Stdout, text: &[u8], count: usize) {
    let mut room = [77; NUMBERS];
    let numbers = &mut room[..count.min(NUMBERS)];
    let read = capi::lizkarg_read_sheet(text, numbers);
    print_answer(stdout, read.kind, read.number);
    print_header(stdout, read.header);
    print_shown(stdout, numbers);
    print_line_end(stdout);
}

// The lines of a text; false where its numbers and one more have no room.
fn run_text(stdout: Stdout, text: &[u8]) -> bool {
    let count = capi::lizkarg_sheet_numbers(text);
    print_decimal(stdout, count as u64);
    print_line_end(stdout);
    if count >= NUMBERS {
        return false;
    }
    for lent in [count.saturating_sub(1), count, count + 1] {
        run_reader(stdout, text, lent);
    }
    let judged = capi::lizkarg_judge_sheet(text);
    print_answer(stdout, judged.kind, judged.number);
    print_line_end(stdout);
    true
}

// Reads a case and prints its lines; false where the case is cut off or has no room.
fn run_case(stdin: Stdin, stdout: Stdout, text: &mut [u8]) -> bool {
    let count = read_number(stdin, BYTES);
    match read_case(stdin, text, count) {
        Some(case) => run_text(stdout, case),
        None => false,
    }
}

// Runs cases until one fails, and answers how many it ran.
fn run_cases(stdin: Stdin, stdout: Stdout, text: &mut [u8], cases: usize) -> usize
    ensures { result ≤ cases }
{
    for i in 0..cases {
        if !run_case(stdin, stdout, text) {
            return i;
        }
    }
    cases
}

fn main(rt: HostRuntime) {
    let stdin = rt.stdin();
    let stdout = rt.stdout();
    let mut text = [0; 131073];
    let cases = read_number(stdin, CASES);
    run_cases(stdin, stdout, &mut text, cases);
    let written = read_number(stdin, CASES);
    writer_cases::run_writer(stdin, stdout, &mut text, written);
}
