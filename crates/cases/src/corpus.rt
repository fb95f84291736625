// A corpus on standard input: a line with the number of its cases, and for each a line with its number of bytes, the bytes, and a line feed. These
// numbers stand in 16 columns, as on a sheet.
ghost use Rattle.std.specs.Prelude.{◌≡◌, ◌≤◌, min, nat_abs, length, take, IfSome, IsNone};
ghost use Rattle.fields.specs.Place.{number_at};

use crate::reading::read_full;
use fields::walk::number_size;
use std::io::Stdin;

// The number in the first 16 columns of a line, where it is at most `most`, else `most`; 0 where there is none.
fn number_in(line: &[u8], most: usize) -> usize
    ensures { result ≡ min (nat_abs (number_at line.now 0)) most }
{
    (number_size(line, 0) as usize).min(most)
}

// Reads a line of one number: the number, or `most` where it is more; 0 where there is none.
pub fn read_number(mut stdin: Stdin, most: usize) -> usize
    ensures { result ≤ most }
{
    let mut line = [0; 17];
    read_full(&mut stdin, &mut line);
    number_in(&line, most)
}

// The first `count` bytes.
fn front(text: &[u8], count: usize) -> &[u8]
    ensures { result.now ≡ take count text.now }
{
    &text[..count.min(text.len())]
}

// Reads a case of `count` bytes and its line feed into `text`: the case, or None where `text` has no room for both or the input ends before.
pub fn read_case(mut stdin: Stdin, text: &mut [u8], count: usize) -> Option<&[u8]>
    ensures whole { IfSome result (λ case. length case.now ≡ count) }
    ensures no_room { length text.old ≤ count → IsNone result }
{
    if count >= text.len() {
        return None;
    }
    if read_full(&mut stdin, &mut text[..count + 1]) <= count {
        return None;
    }
    Some(front(text, count))
}
