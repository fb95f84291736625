// The cases one after another.
ghost use Rattle.std.specs.Prelude.{◌≡◌, length};
ghost use Rattle.cases.specs.Text.{Lines};
ghost use Rattle.ring_cases.specs.Results.{is_element, results_of, line_results, Results};

use crate::{digits, elements, product, values};
use cases::{lines, numbers, printing, text};
use std::io::{Stdin, Stdout};

fn is_element(operation: usize) -> bool
    ensures { result ≡ is_element operation }
{
    ((1 < operation) & (operation < 9)) | (operation == 12)
}

// The results of a case, and how many they are.
fn run(operation: usize, xs: &[i32], wides: &[i64], out: &mut [i32]) -> usize
    requires { (length xs.now ≡ 2048) × (length out.old ≡ 512) }
    ensures { Results (results_of operation xs.now wides.now) out.old out.new result }
{
    match operation {
        9 => digits::write_number_digits(xs, out),
        10 => digits::write_element_digits(xs, out),
        19 => product::write_product(xs, wides, out),
        _ if is_element(operation) => elements::write_element(operation, xs, out),
        _ => values::write_value(operation, xs, wides, out),
    }
}

// The results of a line.
fn run_line(line: &[u8], out: &mut [i32]) -> usize
    requires { length out.old ≡ 512 }
    ensures { Results (line_results line.now) out.old out.new result }
{
    let mut wides = [0; 2048];
    let mut words = [0; 2048];
    text::numbers_of(line, &mut wides, &mut words);
    let operation = numbers::size(&words, 0, 19);
    run(operation, &words, &wides, out)
}

// The results of a line on standard output.
fn print_results(stdout: Stdout, line: &[u8]) -> usize
    ensures { result ≡ length (line_results line.now) }
{
    let mut out = [0i32; 512];
    let count = run_line(line, &mut out);
    printing::print_words(stdout, &out[..count])
}

// Reads a text into the buffer and runs its lines; the answer is how many there are.
pub fn run_text(stdin: Stdin, stdout: Stdout, buffer: &mut [u8]) -> usize
    ensures { Lines buffer.new result }
{
    lines::run_text(stdin, stdout, buffer, |line| {
        print_results(stdout, line);
    })
}
