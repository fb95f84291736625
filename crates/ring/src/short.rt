// Products with one short operand: digits, challenges, most witnesses. Its numbers are raised so that none is negative; a column of
// products is then summed exactly, with no upper halves apart.
ghost use Rattle.std.specs.Prelude.{◌≡◌, ℕ, ◌+◌, ◌*◌, ◌<◌, ◌≤◌, length, slice_index, unsigned_abs};
ghost use Rattle.ring.specs.Element.{Degree, R};
ghost use Rattle.ring.specs.Product.{Residues, TwoColumns, Room, Added};
ghost use Rattle.ring.specs.Short.{lifted, weight, short_column, short, Short, Raised, Narrow};

use crate::product::ColumnPair;
use residues::range::all_between;

// Whether all numbers of element p are below 2^22 in absolute value.
pub fn is_short(d: usize, v: &[i32], p: usize) -> bool
    requires degree { Degree d }
    requires d_in_bounds { p * d + d ≤ length v.now }
    ensures { result ≡ short d v.now p }
{
    let at = p * d;
    all_between(-4194303, 4194303, &v[at..at + d])
}

// 2^22 + x.
fn raised(x: i32) -> u64
    requires { unsigned_abs x < 4194304 }
    ensures { result ≡ lifted x }
{
    let wide = x as i64;
    (4194304 + wide) as u64
}

// The numbers of element p, raised, from place 1 on, the last one first, and then their negatives, raised.
pub fn raise(d: usize, v: &[i32], p: usize, e: &mut [u64; 129])
    requires degree { Degree d }
    requires d_in_bounds { (p * d + d ≤ length v.now) × (length e.old ≡ 129) × Short d v.now p }
    ensures { Raised d v.now p d e.new }
{
    let last = p * d + (d - 1);
    e[0] = 0;
    for i in 0..d {
        let x = raised(v[last - i]);
        e[i + 1] = x;
        e[d + i + 1] = 8388608 - x;
    }
}

// What the raise of one operand adds to each column, taken away modulo q. 274877900608 is 64·q: the sum of 64 residues is below it.
pub fn raised_weight(d: usize, a: &[u64; 64]) -> u64
    requires { (d ≤ 64) × ((i : ℕ) → i < d → slice_index a.now i < 4294967197) }
    ensures { result ≡ weight d a.now }
{
    let mut sum: u64 = 0;
    for i in 0..d {
        sum += a[i];
    }
    4194304 * (274877900608 - sum)
}

// Two columns, which start at two places of e, each from c on.
pub fn columns(
    d: usize,
    start: usize,
    other: usize,
    c: u64,
    a: &[u64; 64],
    e: &[u64; 129],
) -> ColumnPair
    requires { (d ≤ 64) × (start ≤ d) × (other ≤ d) × (c ≤ 1152921504606846976) × Narrow d e.now }
    ensures { TwoColumns (short_column d a.now e.now c) start other result.first result.second }
{
    let mut sum = c;
    let mut sum2 = c;
    for i in 0..d {
        let x = a[i] % 4294967296;
        let y = e[start + i] % 4294967296;
        let z = e[other + i] % 4294967296;
        sum += x * y;
        sum2 += x * z;
    }
    ColumnPair {
        first: sum % 4294967296 + 99 * (sum / 4294967296),
        second: sum2 % 4294967296 + 99 * (sum2 / 4294967296),
    }
}
