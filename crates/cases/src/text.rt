// Numbers in a text: decimal, with a minus sign or without, each ended by one blank or line feed. One case is one line.
ghost use Rattle.std.specs.Prelude.{◌≡◌, ◌≤◌, map, pos, length, replicate};
ghost use Rattle.cases.specs.Numbers.{padded, word};
ghost use Rattle.cases.specs.Text.{with_digit, with_sign, line_numbers, line_length};

use crate::numbers::narrow;

// The largest magnitude of a negative number of 64 bits.
const MOST: u64 = 1 << 63;

// A magnitude with one more byte, at most 2^63. Bytes that are no digits, such as the sign, change nothing.
fn with_digit(magnitude: u64, byte: u8) -> u64
    requires { magnitude ≤ 9223372036854775808 }
    ensures { result ≡ with_digit magnitude byte }
{
    match byte {
        b'0'..=b'9' => magnitude
            .saturating_mul(10)
            .saturating_add(u64::from(byte - b'0'))
            .min(MOST),
        _ => magnitude,
    }
}

// The number with this sign and magnitude, or the nearest that 64 bits hold.
fn with_sign(minus: bool, magnitude: u64) -> i64
    requires { magnitude ≤ 9223372036854775808 }
    ensures { result ≡ with_sign minus magnitude }
{
    match i64::try_from(magnitude) {
        Ok(x) => if minus { -x } else { x },
        Err(_) => if minus { i64::MIN } else { i64::MAX },
    }
}

// The numbers of a line, over a list of zeros. It stops where the list is full.
pub fn scan(line: &[u8], numbers: &mut [i64])
    requires { numbers.old ≡ replicate (length numbers.old) (pos 0) }
    ensures { numbers.new ≡ padded (length numbers.old) (line_numbers line.now) }
{
    let mut minus = false;
    let mut magnitude = 0;
    let mut count = 0;
    for byte in line {
        if *byte > b' ' {
            minus |= *byte == b'-';
            magnitude = with_digit(magnitude, *byte);
        } else {
            if numbers.len() <= count {
                return;
            }
            numbers[count] = with_sign(minus, magnitude);
            count += 1;
            minus = false;
            magnitude = 0;
        }
    }
}

// The first N numbers of a line, zeros after them, with all their bits and as numbers of 32 bits.
pub fn numbers_of<const N: usize>(line: &[u8], wides: &mut [i64; N], words: &mut [i32; N])
    ensures wides { wides.new ≡ padded N (line_numbers line.now) }
    ensures words { words.new ≡ map word (padded N (line_numbers line.now)) }
{
    wides.fill(0);
    scan(line, wides);
    narrow(wides, words);
}

// How many bytes the first line has, its line feed included.
pub fn line_length(text: &[u8]) -> usize
    ensures { result ≡ line_length text.now }
{
    for (i, byte) in text.iter().enumerate() {
        if *byte == b'\n' {
            return i + 1;
        }
    }
    text.len()
}
