// Products and inner products in R. Residues are unsigned; one operand is reversed and extended by its negacyclic copy, so that each
// coefficient of a product is one column of d summands. Whole products are summed wrapping and their upper halves exactly, and one
// remainder at the end gives the coefficient.
ghost use Rattle.std.specs.Prelude.{◌≡◌, ℕ, ◌+◌, ◌*◌, ◌<◌, ◌≤◌, length, pos, slice_index};
ghost use Rattle.integers.specs.Lists.{tab, upto};
ghost use Rattle.algebra.specs.Sum.{sum};
ghost use Rattle.residues.specs.Modulus.{centred};
ghost use Rattle.ring.specs.Element.{Degree, R, lift, el, array};
ghost use Rattle.ring.specs.Product.{Residues, Extended, column, most, TwoColumns, Room, Added, Gained};

use crate::short;
use crate::table::tabulated;
use residues::modulus::{from_residue, residue};

// The coefficients of element p of u.
fn load(d: usize, u: &[i32], p: usize, a: &mut [u64; 64])
    requires degree { Degree d }
    requires d_in_bounds { (p * d + d ≤ length u.now) × (length a.old ≡ 64) }
    ensures { Residues d (el d u.now p) d a.new }
{
    let at = p * d;
    for i in 0..d {
        a[i] = residue(u[at + i]);
    }
}

// The coefficients of element p of v from place 1 on, the last one first, and then their negatives.
fn extend(d: usize, v: &[i32], p: usize, e: &mut [u64; 129])
    requires degree { Degree d }
    requires d_in_bounds { (p * d + d ≤ length v.now) × (length e.old ≡ 129) }
    ensures { Extended d (el d v.now p) d e.new }
{
    let last = p * d + (d - 1);
    for i in 0..d {
        let x = residue(v[last - i]);
        e[i + 1] = x;
        e[d + i + 1] = 4294967197 - x;
    }
}

// Two columns.
#[derive(Clone, Copy)]
pub struct ColumnPair {
    pub first: u64,
    pub second: u64,
}

// Two columns, which start at two places of e: each is the sum of d products, up to a multiple of q, and below 2^46. Products are added
// modulo 2^64 and their upper halves exactly; what the upper halves leave of the sum is the lower halves, and an upper half counts 99
// since 2^32 is 99 modulo q.
fn columns(d: usize, start: usize, other: usize, a: &[u64; 64], e: &[u64; 129]) -> ColumnPair
    requires { (d ≤ 64) × (start ≤ 64) × (other ≤ 64) }
    ensures { TwoColumns (column d a.now e.now) start other result.first result.second }
{
    let mut sum: u64 = 0;
    let mut high: u64 = 0;
    let mut sum2: u64 = 0;
    let mut high2: u64 = 0;
    for i in 0..d {
        let x = a[i] % 4294967296;
        let y = e[start + i] % 4294967296;
        let z = e[other + i] % 4294967296;
        let product = x * y;
        let product2 = x * z;
        sum = sum.wrapping_add(product);
        sum2 = sum2.wrapping_add(product2);
        high += product / 4294967296;
        high2 += product2 / 4294967296;
    }
    let low = sum.wrapping_sub((high % 4294967296) * 4294967296);
    let low2 = sum2.wrapping_sub((high2 % 4294967296) * 4294967296);
    ColumnPair {
        first: low + 99 * high,
        second: low2 + 99 * high2,
    }
}

// Adds the columns of one product to an accumulator: column k and column half + k together, which `pair` gives by their starts. For odd d
// there is one column too many, past those that count.
fn add_pairs<F: Fn(usize, usize) -> ColumnPair>(d: usize, pair: F, acc: &mut [u64; 64])
    requires degree { Degree d }
    requires calls { (start other : ℕ) → start ≤ d → other ≤ d → F.pre pair start other }
    requires columns { (col : ℕ → ℕ) × ((start : ℕ) → start ≤ d → col start ≤ most)
        × ((start other : ℕ) (found : ColumnPair) → F.post pair start other found → TwoColumns col start other found.first found.second) }
    requires room { Room acc.old }
    ensures { (col : ℕ → ℕ) → ((start : ℕ) → start ≤ d → col start ≤ most)
        → ((start other : ℕ) (found : ColumnPair) → F.post pair start other found → TwoColumns col start other found.first found.second)
        → Added d col acc.old acc.new }
{
    let half = (d + 1) / 2;
    for k in 0..half {
        let found = pair(d - k, d - k - half);
        acc[k] += found.first;
        acc[half + k] += found.second;
    }
}

// The centred coefficients that an accumulator holds.
fn finish(d: usize, acc: &[u64; 64]) -> [i32; 64]
    requires { Degree d }
    ensures { result ≡ tab 64 (upto d (λ k. centred (pos (slice_index acc.now k))) (pos 0)) }
{
    tabulated(d, |k| from_residue(acc[k]))
}

// Adds the product of element p of u and element s of v to an accumulator, with a and e for the operands.
fn add_product(
    d: usize,
    u: &[i32],
    p: usize,
    v: &[i32],
    s: usize,
    a: &mut [u64; 64],
    e: &mut [u64; 129],
    acc: &mut [u64; 64],
)
    requires degree { Degree d }
    requires d_in_bounds { (p * d + d ≤ length u.now) × (s * d + d ≤ length v.now) }
    requires a_len { (length a.old ≡ 64) × (length e.old ≡ 129) × Room acc.old }
    ensures { (length a.new ≡ 64) × (length e.new ≡ 129)
        × Gained d ((R d).mul (el d u.now p) (el d v.now s)) acc.old acc.new }
{
    load(d, u, p, a);
    if short::is_short(d, v, s) {
        short::raise(d, v, s, e);
        let (a, e) = (&*a, &*e);
        let weight = short::raised_weight(d, a);
        add_pairs(
            d,
            |start, other| short::columns(d, start, other, weight, a, e),
            acc,
        );
    } else {
        extend(d, v, s, e);
        let (a, e) = (&*a, &*e);
        add_pairs(d, |start, other| columns(d, start, other, a, e), acc);
    }
}

// The inner product of the n elements of u from element p on with the n elements of v from element s on.
pub fn inner(d: usize, n: usize, u: &[i32], p: usize, v: &[i32], s: usize) -> [i32; 64]
    requires degree { Degree d }
    requires n_bound { (n ≤ 4096) × ((p + n) * d ≤ length u.now) × ((s + n) * d ≤ length v.now) }
    ensures { result ≡ array d (sum (R d) n (λ k. (R d).mul (el d u.now (p + k)) (el d v.now (s + k)))) }
{
    let mut acc = [0u64; 64];
    let mut a = [0u64; 64];
    let mut e = [0u64; 129];
    for k in 0..n {
        add_product(d, u, p + k, v, s + k, &mut a, &mut e, &mut acc);
    }
    finish(d, &acc)
}

// The product of two elements.
pub fn multiply(d: usize, a: [i32; 64], b: [i32; 64]) -> [i32; 64]
    requires { Degree d }
    ensures { result ≡ array d ((R d).mul (lift d a) (lift d b)) }
{
    inner(d, 1, &a, 0, &b, 0)
}
