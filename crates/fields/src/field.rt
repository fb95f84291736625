// One field of 16 columns: SPECIFICATION 10.1, "decimal, right-justified with blanks in 16 columns, no leading zeros, no plus, no minus zero".
ghost use Rattle.std.specs.Prelude.{◌≡◌, Bool, ◌+◌, ◌*◌, ◌<◌, ◌≤◌, length, take, drop, pos, neg_ℤ};
ghost use Rattle.fields.specs.Field.{column_byte, minus_due, signed_text};
ghost use Rattle.fields.specs.Fields.{digit_step, value_from, same_bytes, read_field, field_at};

// The value of the digits so far and of one more byte, where that is a digit.
fn digit_step(m: u64, byte: u8) -> u64
    requires { m < 1000000000000000000 }
    ensures { result ≡ digit_step m byte }
{
    match byte {
        b'0'..=b'9' => m * 10 + (byte - b'0') as u64,
        _ => m,
    }
}

// The value of the digits among the 16 bytes from `at` on.
fn digits_value(text: &[u8], at: usize) -> u64
    requires { at + 16 ≤ length text.now }
    ensures { result ≡ value_from 0 (take 16 (drop at text.now)) }
{
    let mut value = 0;
    for k in 0..16 {
        value = digit_step(value, text[at + k]);
    }
    value
}

// The byte left of what is written, where m is still to be written and a minus is due if `minus`.
pub fn column_byte(minus: bool, m: u64) -> u8
    ensures { result ≡ column_byte minus m }
{
    if 0 < m {
        b'0' + (m % 10) as u8
    } else if minus {
        b'-'
    } else {
        b' '
    }
}

// A minus is due after that byte.
fn minus_due(minus: bool, m: u64) -> bool
    ensures { result ≡ minus_due minus m }
{
    0 < m && minus
}

// The 16 bytes from `at` on are the field of m, or of its opposite.
fn is_field_of(text: &[u8], at: usize, minus: bool, m: u64) -> bool
    requires { at + 16 ≤ length text.now }
    ensures { result ≡ same_bytes (take 16 (drop at text.now)) (signed_text minus m) }
{
    if text[at + 15] != b'0' + (m % 10) as u8 {
        return false;
    }
    let mut rest = m / 10;
    let mut due = minus;
    for left in (0..15).rev() {
        if text[at + left] != column_byte(due, rest) {
            return false;
        }
        due = minus_due(due, rest);
        rest /= 10;
    }
    true
}

// The number whose field stands in the 16 bytes from `at` on; None where they are no field, and where the text ends before.
pub fn read_field(text: &[u8], at: usize) -> Option<i64>
    ensures { result ≡ field_at text.now at }
{
    if text.len() < 16 || text.len() - 16 < at {
        return None;
    }
    let value = digits_value(text, at);
    if is_field_of(text, at, false, value) {
        Some(value as i64)
    } else if is_field_of(text, at, 0 < value, value) {
        Some(-(value as i64))
    } else {
        None
    }
}
