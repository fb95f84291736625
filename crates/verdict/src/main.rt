// The program of verdicts: SPECIFICATION 10. It reads a sheet from standard input and prints the line of its verdict.
#![tactic(auto)]

ghost use Rattle.std.specs.Prelude.{◌≡◌, ◌≤◌, ◌<◌, length, take, IfSome};
ghost use Rattle.std.specs.Counts.{IsPrefixLen};
ghost use Rattle.std.specs.IoError.{error_kind};
ghost use Rattle.verdict.specs.Reads.{Moved, TookInto, TookBetween, number_of, place_after, interrupted};

use std::io::{self, ErrorKind, Read};

// C's number of the error of an interrupted call.
const EINTR: i32 = 4;

// Whether a signal ended a read before its first byte: it answered `got`, and C's errno is `error`.
fn interrupted(got: isize, error: i32) -> bool
    ensures { result ≡ interrupted got error }
{
    got < 0 && error == EINTR
}

// C's number of a read's error where a signal interrupted it, and 0 where the read failed otherwise.
fn error_number(error: &io::Error) -> i32
    ensures { result ≡ number_of (error_kind error.now) }
{
    match error.kind() {
        ErrorKind::Interrupted => EINTR,
        _ => 0,
    }
}

// One read into `part`, as C answers it: the count of its bytes, or -1, and the number of its error.
fn read_into<R: Read>(input: &mut R, part: &mut [u8]) -> (isize, i32)
    ensures moved { Moved (length part.old) result.0 }
    ensures bytes { TookInto (R.remaining input.old) (R.remaining input.new) result.0 part.new }
{
    match input.read(part) {
        Ok(count) => (count as isize, 0),
        Err(error) => (-1, error_number(&error)),
    }
}

// One read into `part`, made again where a signal interrupts it: an interrupted read is no failed one. No run uses up the tries, which are
// counted so that the loop ends.
fn read_once<R: Read>(input: &mut R, part: &mut [u8]) -> isize
    ensures moved { Moved (length part.old) result }
    ensures bytes { TookInto (R.remaining input.old) (R.remaining input.new) result part.new }
{
    for _ in 0..u64::MAX {
        let (got, error) = read_into(input, part);
        if !interrupted(got, error) {
            return got;
        }
    }
    -1
}

// The place after as many bytes as a read answered, cut at the end; the end where it failed.
fn after(got: isize, from: usize, size: usize) -> usize
    requires { from ≤ size }
    ensures { result ≡ place_after got from size }
{
    match usize::try_from(got) {
        Ok(count) => from + count.min(size - from),
        Err(_) => size,
    }
}

// One read into `text` from place `from` on: the place after the bytes that it put there. Where the read fails it is the end of `text`.
// The bytes before stay.
fn read_more<R: Read>(input: &mut R, text: &mut [u8], from: usize) -> usize
    requires { from ≤ length text.old }
    ensures lower_bound { (from ≤ result) × (result ≤ length text.old) }
    ensures text_unchanged { take from text.new ≡ take from text.old }
    ensures bytes { from < length text.old → result < length text.old →
        TookBetween (R.remaining input.old) (R.remaining input.new) from result text.new }
{
    let size = text.len();
    let got = read_once(input, &mut text[from..]);
    after(got, from, size)
}

// Reads the input to its end, or until `text` is full, and answers how many bytes it read. Where a read fails it answers the length
// of `text`, which is more than a sheet may have. Fewer bytes than `text` has room for are all that the input has.
fn read_text<R: Read>(input: &mut R, text: &mut [u8]) -> usize
    requires { 65536 < length text.old }
    ensures within { IsPrefixLen result text.new }
    ensures bytes { IfSome (R.remaining input.old) (λ xs. result < length text.old → take result text.new ≡ xs) }
{
    let mut done = 0;
    // A while: each step is as long as the read answered.
    while done < text.len() {
        let next = read_more(input, text, done);
        if next == done {
            return done;
        }
        done = next;
    }
    done
}

fn main(rt: HostRuntime) -> io::Result<()> {
    let mut text = [0u8; 65537];
    let count = read_text(&mut rt.stdin(), &mut text);
    let line = judge::judged_line(&text[..count]);
    rt.write_all(&line)
}
