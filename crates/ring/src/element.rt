// Ring elements by value: sixty-four numbers, lowest power first, those past d zero.
ghost use Rattle.std.specs.Prelude.{◌≡◌, ℕ, ◌+◌, ◌-◌, ◌*◌, ◌<◌, ◌≤◌, length, take, pos, slice_index_or};
ghost use Rattle.integers.specs.Over.{over};
ghost use Rattle.algebra.specs.Conjugation.{conjugate};
ghost use Rattle.algebra.specs.Indeterminate.{indeterminate};
ghost use Rattle.residues.specs.Modulus.{Zq, centred};
ghost use Rattle.ring.specs.Element.{R, Degree, lift, el, array, number, same};
ghost use Rattle.residues.specs.Digits.{Base};
ghost use Rattle.ring.specs.Joined.{joined};

use crate::{coefficients, constants, product};
use residues::modulus;

#[derive(Clone, Copy)]
pub struct Element {
    pub coefficients: [i32; 64],
}

impl Element {
    // The names that SPECIFICATION 2.4 asks for: they are the same numbers for every degree.
    pub const ZERO: Element = Element {
        coefficients: [0; 64],
    };

    pub const ONE: Element = Element {
        coefficients: constants::ONE,
    };

    pub const X: Element = Element {
        coefficients: constants::X,
    };

    pub fn additive_identity() -> Element
        ensures { (d : ℕ) → result.coefficients ≡ array d (R d).zero }
    {
        Element::ZERO
    }

    pub fn multiplicative_identity() -> Element
        ensures { (d : ℕ) → 0 < d → result.coefficients ≡ array d (R d).one }
    {
        Element::ONE
    }

    pub fn indeterminate() -> Element
        ensures { (d : ℕ) → 1 < d → result.coefficients ≡ array d (indeterminate Zq d) }
    {
        Element::X
    }

    // A number modulo q as an element.
    pub fn constant(c: i32) -> Element
        ensures { (d : ℕ) → 0 < d → result.coefficients ≡ array d (number d c) }
    {
        let mut coefficients = [0i32; 64];
        coefficients[0] = modulus::add(c, 0);
        Element { coefficients }
    }

    // Element p of a list with d numbers to an element. The numbers are centred on the way in.
    pub fn from_slice(d: usize, xs: &[i32], p: usize) -> Element
        requires degree { Degree d }
        requires d_in_bounds { p * d + d ≤ length xs.now }
        ensures { result.coefficients ≡ array d (el d xs.now p) }
    {
        Element {
            coefficients: coefficients::loaded(d, xs, p),
        }
    }

    pub fn sum(self, d: usize, other: Element) -> Element
        requires { Degree d }
        ensures { result.coefficients ≡ array d ((R d).add (lift d self.coefficients) (lift d other.coefficients)) }
    {
        Element {
            coefficients: coefficients::added(d, self.coefficients, other.coefficients),
        }
    }

    pub fn scale(self, d: usize, c: i32) -> Element
        requires { Degree d }
        ensures { result.coefficients ≡ array d ((R d).mul (number d c) (lift d self.coefficients)) }
    {
        Element {
            coefficients: coefficients::scaled(d, c, self.coefficients),
        }
    }

    pub fn negation(self, d: usize) -> Element
        requires { Degree d }
        ensures { result.coefficients ≡ array d ((R d).neg (lift d self.coefficients)) }
    {
        Element {
            coefficients: coefficients::scaled(d, -1, self.coefficients),
        }
    }

    pub fn difference(self, d: usize, other: Element) -> Element
        requires { Degree d }
        ensures { result.coefficients ≡ array d ((R d).add (lift d self.coefficients) ((R d).neg (lift d other.coefficients))) }
    {
        let minus = coefficients::scaled(d, -1, other.coefficients);
        Element {
            coefficients: coefficients::added(d, self.coefficients, minus),
        }
    }

    // Half of an element: twice the result is the element, since 2 has an inverse modulo q.
    pub fn half(self, d: usize) -> Element
        requires { Degree d }
        ensures { result.coefficients ≡ array d ((R d).mul (number d (pos 2147483599)) (lift d self.coefficients)) }
    {
        Element {
            coefficients: coefficients::scaled(d, modulus::HALF, self.coefficients),
        }
    }

    pub fn product(self, d: usize, other: Element) -> Element
        requires { Degree d }
        ensures { result.coefficients ≡ array d ((R d).mul (lift d self.coefficients) (lift d other.coefficients)) }
    {
        Element {
            coefficients: product::multiply(d, self.coefficients, other.coefficients),
        }
    }

    pub fn conjugate(self, d: usize) -> Element
        requires { Degree d }
        ensures { result.coefficients ≡ array d (conjugate Zq (lift d self.coefficients)) }
    {
        Element {
            coefficients: coefficients::conjugated(d, self.coefficients),
        }
    }

    pub fn constant_term(self) -> i32
        ensures { result ≡ centred (slice_index_or self.coefficients 0 (pos 0)) }
    {
        modulus::add(self.coefficients[0], 0)
    }

    pub fn equals(self, d: usize, other: Element) -> bool
        requires { Degree d }
        ensures { result ≡ same d (lift d self.coefficients) (lift d other.coefficients) }
    {
        coefficients::equal(d, self.coefficients, other.coefficients)
    }

    // Writes the element's d numbers as element p of a list.
    pub fn store(self, d: usize, out: &mut [i32], p: usize)
        requires degree { Degree d }
        requires d_in_bounds { p * d + d ≤ length out.old }
        ensures { out.new ≡ over out.old (p * d) (take d self.coefficients) }
    {
        coefficients::stored(d, self.coefficients, out, p)
    }

    // The element with t digits to a base, digit e of which is element p + e * stride of xs.
    pub fn recompose(
        d: usize,
        base: usize,
        t: usize,
        xs: &[i32],
        p: usize,
        stride: usize,
    ) -> Element
        requires degree { Degree d }
        requires base { Base base }
        requires t_nonzero { 0 < t }
        requires d_in_bounds { (p + (t - 1) * stride) * d + d ≤ length xs.now }
        ensures { result.coefficients ≡ array d (joined d base t (λ e. el d xs.now (p + e * stride))) }
    {
        Element {
            coefficients: coefficients::recomposed(d, base, t, xs, p, stride),
        }
    }
}
