// One field written, and the line feed after it: SPECIFICATION 10.1.
ghost use Rattle.std.specs.Prelude.{◌≡◌, ◌++◌, ◌+◌, ◌≤◌, length, take, drop};
ghost use Rattle.integers.specs.Over.{over};
ghost use Rattle.fields.specs.Field.{columns, signed_text};
ghost use Rattle.fields.specs.Place.{blanks, field_width, feed};

use crate::field::column_byte;

// The 16 bytes from `at` on become blanks.
fn write_blanks(text: &mut [u8], at: usize)
    requires { at + 16 ≤ length text.old }
    ensures { text.new ≡ over text.old at (blanks 16) }
{
    for k in 0..16 {
        text[at + k] = b' ';
    }
}

// Of 15 blanks from `at` on, the last become the digits of m, of which 0 has none, and before them a minus if `minus`.
fn write_columns(text: &mut [u8], at: usize, minus: bool, m: u64)
    requires { (at + 15 ≤ length text.old) × (take 15 (drop at text.old) ≡ blanks 15) }
    ensures { text.new ≡ over text.old at (columns 15 minus m) }
{
    let mut rest = m;
    for left in (0..15).rev() {
        if rest == 0 {
            text[at + left] = column_byte(minus, 0);
            return;
        }
        text[at + left] = b'0' + (rest % 10) as u8;
        rest /= 10;
    }
}

// The 16 bytes from `at` on become the field of m, or of its opposite.
fn write_field(text: &mut [u8], at: usize, minus: bool, m: u64)
    requires { at + 16 ≤ length text.old }
    ensures { text.new ≡ over text.old at (signed_text minus m) }
{
    write_blanks(text, at);
    write_columns(text, at, minus, m / 10);
    text[at + 15] = b'0' + (m % 10) as u8;
}

// The same, and a line feed after it where it is the last of its line.
pub fn write_laid(text: &mut [u8], at: usize, minus: bool, m: u64, last: bool)
    requires { at + field_width last ≤ length text.old }
    ensures { text.new ≡ over text.old at (signed_text minus m ++ feed last) }
{
    write_field(text, at, minus, m);
    if last {
        text[at + 16] = b'\n';
    }
}
