// The cases of the writer. Standard input has a line with their number, then for each a line of 20 numbers, the header's 18, how many numbers follow
// and the length of the buffer, and a line with these numbers; each stands in 16 columns. Standard output gets for each case how many bytes the text
// has, the writer's answer, the length and the checksum of the buffer, on one line, and the buffer where it is not too long, and a line feed.
ghost use Rattle.std.specs.Prelude.{◌≤◌, ◌<◌, length};

use crate::{CASES, NUMBERS, print_number};
use capi::sizes::{CShape, CSizes};
use capi::write::{CText, lizkarg_sheet_bytes, lizkarg_write_sheet};
use cases::corpus::read_case;
use cases::numbers::word;
use cases::printing::{print_bytes, print_decimal, print_line_end};
use cases::reading::read_full;
use cases::sums::with_number;
use fields::walk::{number_at, number_size};
use std::io::{Stdin, Stdout};

// The longest buffer that a case has.
const BUFFER: usize = 140000;

// The longest buffer that is printed.
const SHOWN: usize = 4096;

fn size_at(line: &[u8], at: usize) -> usize {
    number_size(line, at) as usize
}

// The sizes on the line of a case.
fn sizes_on(line: &[u8]) -> CSizes {
    CSizes {
        shape: CShape {
            d: size_at(line, 0),
            n: size_at(line, 16),
            r: size_at(line, 32),
        },
        k: size_at(line, 48),
        l: size_at(line, 64),
        w: size_at(line, 80),
        kappa: size_at(line, 96),
        kappa1: size_at(line, 112),
        kappa2: size_at(line, 128),
        b: size_at(line, 144),
        b1: size_at(line, 160),
        b2: size_at(line, 176),
        t1: size_at(line, 192),
        t2: size_at(line, 208),
        bound: number_size(line, 256),
        target: number_size(line, 272),
        one_digit: 0,
    }
}

// The numbers of a text.
fn numbers_on(text: &[u8], numbers: &mut [i32])
    requires { length numbers.old ≤ 8192 }
{
    for (i, number) in numbers.iter_mut().enumerate() {
        *number = word(number_at(text, 16 * i));
    }
}

// The first byte once, the second twice, and so on, modulo 2^31 - 1.
fn byte_sum(text: &[u8]) -> u64
    ensures { result < 2147483647 }
{
    let mut sum = 0;
    for (i, byte) in text.iter().enumerate() {
        sum = with_number(sum, i as u64 + 1, i32::from(*byte));
    }
    sum
}

// The length and the checksum of a buffer, and its bytes where they are not too many.
fn print_buffer(stdout: Stdout, text: &[u8]) {
    let _ = print!(stdout; " {} {}", text.len(), byte_sum(text));
    print_line_end(stdout);
    if text.len() <= SHOWN {
        print_bytes(stdout, text);
    }
    print_line_end(stdout);
}

fn print_answer(stdout: Stdout, wrote: CText) {
    let _ = print!(stdout; " {} {} {}", wrote.kind, wrote.number, wrote.length);
}

// Writes a sheet into a buffer, and prints the answer and the buffer afterwards.
fn print_written(stdout: Stdout, line: &[u8], numbers: &[i32], text: &mut [u8]) {
    let sizes = sizes_on(line);
    let nu = size_at(line, 224);
    let mu = size_at(line, 240);
    print_decimal(stdout, lizkarg_sheet_bytes(sizes, nu, mu) as u64);
    print_answer(stdout, lizkarg_write_sheet(sizes, nu, mu, numbers, text));
    print_buffer(stdout, text);
}

// Reads a case, and writes its sheet into a buffer whose bytes are 77 before; false where the case is cut off or has no room.
fn run_case(
    mut stdin: Stdin,
    stdout: Stdout,
    text: &mut [u8],
    numbers: &mut [i32; NUMBERS],
    buffer: &mut [u8; BUFFER],
) -> bool {
    let mut line = [0; 321];
    if read_full(&mut stdin, &mut line) < 321 {
        return false;
    }
    let count = size_at(&line, 288).min(NUMBERS);
    let room = size_at(&line, 304);
    let Some(case) = read_case(stdin, text, 16 * count) else {
        return false;
    };
    if room > BUFFER {
        return false;
    }
    let numbers = &mut numbers[..count];
    let buffer = &mut buffer[..room];
    numbers_on(case, numbers);
    buffer.fill(77);
    print_written(stdout, &line, numbers, buffer);
    true
}

// Runs cases until one fails, and answers how many it ran. It has a frame of its own, so that no sheet is read beside its buffer.
#[inline(never)]
pub fn run_writer(stdin: Stdin, stdout: Stdout, text: &mut [u8], cases: usize) -> usize
    ensures { result ≤ cases }
{
    let mut numbers = [0; NUMBERS];
    let mut buffer = [0; BUFFER];
    for i in 0..cases {
        if !run_case(stdin, stdout, text, &mut numbers, &mut buffer) {
            return i;
        }
    }
    cases
}
