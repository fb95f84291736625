// Passes over the fields of a text, all of one shape: number i stands at a running place, and `ends_line` says where lines end.
ghost use Rattle.std.specs.Prelude.{◌≡◌, ◌+◌, ◌*◌, ◌≤◌, ◌<◌, true, eqb, leb, length, get_or, nat_abs};
ghost use Rattle.integers.specs.Over.{over};
ghost use Rattle.residues.specs.Range.{all_within, coefficients, challenge};
ghost use Rattle.fold.specs.Refusals.{challenges};
ghost use Rattle.fields.specs.Sections.{ends_line};
ghost use Rattle.fields.specs.Place.{field_width, place, laid_field, laid, end_if, number_at, numbers_from, Span};
ghost use Rattle.fields.specs.Field.{header_bytes};
ghost use Rattle.fold.specs.Limits.{most_parts};

use crate::field::read_field;
use crate::sizes::{Sections, ends_line};
use residues::range::is_challenge;

// The number at `at`, 0 where there is none.
pub fn number_at(text: &[u8], at: usize) -> i64
    ensures { result ≡ number_at text.now at }
{
    read_field(text, at).unwrap_or(0)
}

fn is_feed(text: &[u8], at: usize) -> bool
    ensures { result ≡ eqb (get_or text.now at 0) 10 }
{
    at < text.len() && text[at] == b'\n'
}

// A number stands at `at`, and a line feed after it where it is the last of its line.
fn is_laid(text: &[u8], at: usize, last: bool) -> bool
    ensures { result ≡ laid_field text.now at last }
{
    read_field(text, at).is_some() && (!last || is_feed(text, at + 16))
}

// The bytes of a field, and of the line feed after it where it is the last of its line.
pub fn field_width(last: bool) -> usize
    ensures { result ≡ field_width last }
{
    if last { 17 } else { 16 }
}

// Where the first n fields from `at` on end; None where they are not laid.
pub fn laid_end(s: Sections, text: &[u8], at: usize, n: usize) -> Option<usize>
    requires { (0 < s.d) × (0 < s.period) }
    ensures { result ≡ end_if (laid (ends_line s) at text.now n) (place (ends_line s) at n) }
{
    let mut here = at;
    for i in 0..n {
        let last = ends_line(s, i);
        if !is_laid(text, here, last) {
            return None;
        }
        here += field_width(last);
    }
    Some(here)
}

// The place after `count` numbers from number `from` on, which starts at `start`.
pub fn place_after(s: Sections, text: &[u8], from: usize, start: usize, count: usize) -> usize
    requires d_nonzero { (0 < s.d) × (0 < s.period) }
    requires span { Span (ends_line s) text.now from start count }
    ensures { result ≡ place (ends_line s) header_bytes (from + count) }
{
    let mut here = start;
    for j in 0..count {
        here += field_width(ends_line(s, from + j));
    }
    here
}

// The absolute value of the number at `at`.
pub fn number_size(text: &[u8], at: usize) -> u64
    ensures { result ≡ nat_abs (number_at text.now at) }
{
    number_at(text, at).unsigned_abs()
}

// The absolute value of the number at `at` is at most `bound`.
fn is_within(text: &[u8], at: usize, bound: u64) -> bool
    ensures { result ≡ leb (nat_abs (number_at text.now at)) bound }
{
    number_size(text, at) <= bound
}

// `count` numbers from number `from` on have absolute values of at most `bound`.
pub fn all_within(
    s: Sections,
    text: &[u8],
    from: usize,
    start: usize,
    count: usize,
    bound: u64,
) -> bool
    requires d_nonzero { (0 < s.d) × (0 < s.period) }
    requires span { Span (ends_line s) text.now from start count }
    ensures { result ≡ all_within bound (numbers_from (ends_line s) header_bytes text.now from count) }
{
    let mut here = start;
    for j in 0..count {
        if !is_within(text, here, bound) {
            return false;
        }
        here += field_width(ends_line(s, from + j));
    }
    true
}

fn narrow(x: i64) -> i32
    requires { nat_abs x ≤ 2147483598 }
    ensures { result ≡ x }
{
    x as i32
}

// `count` numbers from number `from` on, all in coefficient range, are written to `out`.
pub fn fill(s: Sections, text: &[u8], from: usize, start: usize, count: usize, out: &mut [i32])
    requires d_nonzero { (0 < s.d) × (0 < s.period) }
    requires span { Span (ends_line s) text.now from start count }
    requires count_value { coefficients (numbers_from (ends_line s) header_bytes text.now from count) ≡ true }
    requires count_in_bounds { count ≤ length out.old }
    ensures { out.new ≡ over out.old 0 (numbers_from (ends_line s) header_bytes text.now from count) }
{
    let mut here = start;
    for j in 0..count {
        out[j] = narrow(number_at(text, here));
        here += field_width(ends_line(s, from + j));
    }
}

// The d numbers from number `from` on keep the challenge rule.
fn challenge_at(s: Sections, text: &[u8], from: usize, start: usize, d: usize) -> bool
    requires d_nonzero { (0 < s.d) × (0 < s.period) × (d ≤ 64) }
    requires span { Span (ends_line s) text.now from start d }
    requires d_value { coefficients (numbers_from (ends_line s) header_bytes text.now from d) ≡ true }
    ensures { result ≡ challenge (numbers_from (ends_line s) header_bytes text.now from d) }
{
    let mut numbers = [0i32; 64];
    fill(s, text, from, start, d, &mut numbers);
    is_challenge(&numbers[..d])
}

// r elements of d numbers from number `from` on keep the challenge rule.
pub fn are_challenges(
    s: Sections,
    text: &[u8],
    from: usize,
    start: usize,
    d: usize,
    r: usize,
) -> bool
    requires d_nonzero { (0 < s.d) × (0 < s.period) × (d ≤ 64) × (r ≤ most_parts) }
    requires span { Span (ends_line s) text.now from start (r * d) }
    requires d_value { coefficients (numbers_from (ends_line s) header_bytes text.now from (r * d)) ≡ true }
    ensures { result ≡ challenges d r (numbers_from (ends_line s) header_bytes text.now from (r * d)) }
{
    let mut here = start;
    for e in 0..r {
        let at = from + e * d;
        if !challenge_at(s, text, at, here, d) {
            return false;
        }
        here = place_after(s, text, at, here, d);
    }
    true
}
