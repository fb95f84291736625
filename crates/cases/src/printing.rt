// Results on standard output. Each call answers what it printed: a number, a magnitude, or how many bytes, numbers, blanks or line ends. No result depends on
// whether a write succeeds: one that fails is passed over.
ghost use Rattle.std.specs.Prelude.{◌≡◌, min, nat_abs, length};

use std::io::Stdout;

// Bytes as they are.
pub fn print_bytes(stdout: Stdout, bytes: &[u8]) -> usize
    ensures { result ≡ length bytes.now }
{
    let _ = stdout.write_all(bytes);
    bytes.len()
}

// A number in decimal.
pub fn print_decimal(stdout: Stdout, x: u64) -> u64
    ensures { result ≡ x }
{
    let _ = print!(stdout; "{x}");
    x
}

// The kind and number of an answer; the number is what it answers.
pub fn print_answer(stdout: Stdout, kind: u8, number: u64) -> u64
    ensures { result ≡ number }
{
    let _ = print!(stdout; "{kind} {number}");
    number
}

fn print_word(stdout: Stdout, x: i32) -> u64
    ensures { result ≡ nat_abs x }
{
    let _ = print!(stdout; "{x}");
    u64::from(x.unsigned_abs())
}

// A blank between two results, and none before the first.
pub fn print_gap(stdout: Stdout, place: usize) -> usize
    ensures { result ≡ min 1 place }
{
    if place == 0 {
        0
    } else {
        print_bytes(stdout, b" ")
    }
}

pub fn print_line_end(stdout: Stdout) -> usize
    ensures { result ≡ 1 }
{
    print_bytes(stdout, b"\n")
}

pub fn print_words(stdout: Stdout, xs: &[i32]) -> usize
    ensures { result ≡ length xs.now }
{
    for (i, x) in xs.iter().enumerate() {
        print_gap(stdout, i);
        print_word(stdout, *x);
    }
    xs.len()
}

// The numbers of a list, a blank before each.
pub fn print_list(stdout: Stdout, xs: &[i32]) -> usize
    ensures { result ≡ length xs.now }
{
    print_gap(stdout, xs.len());
    print_words(stdout, xs)
}
