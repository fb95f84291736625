// Operations of R on the numbers of ring elements: sixty-four numbers by value, lowest power first, those past d zero.
ghost use Rattle.std.specs.Prelude.{◌≡◌, ◌+◌, ◌-◌, ◌*◌, ◌<◌, ◌≤◌, length, take};
ghost use Rattle.integers.specs.Over.{over};
ghost use Rattle.algebra.specs.Conjugation.{conjugate};
ghost use Rattle.residues.specs.Modulus.{Zq};
ghost use Rattle.ring.specs.Element.{R, Degree, lift, el, array, number, same};
ghost use Rattle.residues.specs.Digits.{Base};
ghost use Rattle.ring.specs.Joined.{joined};

use crate::table::tabulated;
use residues::modulus;

// Element p of a list with d numbers to an element. The numbers are centred on the way in.
pub fn loaded(d: usize, xs: &[i32], p: usize) -> [i32; 64]
    requires degree { Degree d }
    requires d_in_bounds { p * d + d ≤ length xs.now }
    ensures { result ≡ array d (el d xs.now p) }
{
    let start = p * d;
    tabulated(d, |k| modulus::add(xs[start + k], 0))
}

// The sum of two elements.
pub fn added(d: usize, a: [i32; 64], b: [i32; 64]) -> [i32; 64]
    requires { Degree d }
    ensures { result ≡ array d ((R d).add (lift d a) (lift d b)) }
{
    tabulated(d, |k| modulus::add(a[k], b[k]))
}

// A number times an element.
pub fn scaled(d: usize, c: i32, a: [i32; 64]) -> [i32; 64]
    requires { Degree d }
    ensures { result ≡ array d ((R d).mul (number d c) (lift d a)) }
{
    tabulated(d, |k| modulus::multiply(c, a[k]))
}

// σ(a): the constant term stays, and the coefficient of X^k is the one of X^(d-k) with its sign changed.
pub fn conjugated(d: usize, a: [i32; 64]) -> [i32; 64]
    requires { Degree d }
    ensures { result ≡ array d (conjugate Zq (lift d a)) }
{
    tabulated(
        d,
        |k| if k == 0 {
            modulus::add(a[0], 0)
        } else {
            modulus::multiply(-1, a[d - k])
        },
    )
}

// Whether two elements are the same: their numbers are congruent modulo q, one by one.
pub fn equal(d: usize, a: [i32; 64], b: [i32; 64]) -> bool
    requires { Degree d }
    ensures { result ≡ same d (lift d a) (lift d b) }
{
    let mut all = true;
    for k in 0..d {
        all &= modulus::residue(a[k]) == modulus::residue(b[k]);
    }
    all
}

// Writes the first d numbers as element p of a list.
pub fn stored(d: usize, a: [i32; 64], out: &mut [i32], p: usize)
    requires degree { Degree d }
    requires d_in_bounds { p * d + d ≤ length out.old }
    ensures { out.new ≡ over out.old (p * d) (take d a) }
{
    let start = p * d;
    out[start..start + d].copy_from_slice(&a[..d]);
}

// The element with t digits to a base, digit e of which is element p + e * stride of xs: Horner's rule from the top digit down.
pub fn recomposed(d: usize, base: usize, t: usize, xs: &[i32], p: usize, stride: usize) -> [i32; 64]
    requires degree { Degree d }
    requires base { Base base }
    requires t_nonzero { 0 < t }
    requires d_in_bounds { (p + (t - 1) * stride) * d + d ≤ length xs.now }
    ensures { result ≡ array d (joined d base t (λ e. el d xs.now (p + e * stride))) }
{
    let top = t - 1;
    let mut sum = loaded(d, xs, p + top * stride);
    for e in (0..top).rev() {
        let digit = loaded(d, xs, p + e * stride);
        let high = scaled(d, base as i32, sum);
        sum = added(d, high, digit);
    }
    sum
}
