// The messages of a fold in one list: the digits of z, t, g and h, which are the opening, then u1, p, b'' and u2. Their lengths are the first
// numbers of another.
ghost use Rattle.std.specs.Prelude.{◌≡◌, length};
ghost use Rattle.next_cases.specs.Messages.{start_of, message_of, opening_of, kept};

use cases::lists::put;
use cases::numbers::size;
use cases::sums::print_sum;
use std::io::Stdout;

// Which list each message is.
pub const Z: usize = 0;

pub const T: usize = 1;

pub const G: usize = 2;

pub const H: usize = 3;

pub const U1: usize = 4;

pub const P: usize = 5;

pub const SECOND_B: usize = 6;

pub const U2: usize = 7;

// How many numbers the first lists have, up to `room`.
fn total(lengths: &[i32], lists: usize, room: usize) -> usize
    ensures { result ≡ start_of room lengths.now lists }
{
    let mut sum = 0;
    for i in 0..lists {
        sum += size(lengths, i, room - sum);
    }
    sum
}

// The opening.
pub fn opening<'a>(messages: &'a [i32], lengths: &[i32]) -> &'a [i32]
    ensures { result.now ≡ opening_of messages.now lengths.now }
{
    &messages[..total(lengths, U1, messages.len())]
}

// The list of this number.
pub fn message<'a>(messages: &'a [i32], lengths: &[i32], number: usize) -> &'a [i32]
    ensures { result.now ≡ message_of messages.now lengths.now number }
{
    let room = messages.len();
    let start = total(lengths, number, room);
    let end = start + size(lengths, number, room - start);
    &messages[start..end]
}

// Keeps the list of this number, and prints its sum.
pub fn keep(stdout: Stdout, messages: &mut [i32], lengths: &[i32], number: usize, xs: &[i32])
    ensures { messages.new ≡ kept messages.old lengths.now number xs.now }
{
    let start = total(lengths, number, messages.len());
    put(messages, start, xs, xs.len());
    print_sum(stdout, xs);
}
