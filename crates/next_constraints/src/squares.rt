// The a of check 6: an element for each pair s ≤ s' of parts, by s and then s'.
ghost use Rattle.std.specs.Prelude.{◌≡◌, cond, ◌+◌, ◌-◌, ◌*◌, ◌/◌, ◌^◌, ◌<◌, ◌≤◌, eqb, length, pos, ◌*ℤ◌};
ghost use Rattle.integers.specs.Over.{over};
ghost use Rattle.residues.specs.Modulus.{centred};
ghost use Rattle.residues.specs.Digits.{Base};
ghost use Rattle.ring.specs.Element.{Degree, array};
ghost use Rattle.fold.specs.Sizes.{pairs};
ghost use Rattle.fold.specs.PairElements.{pair_elements};
ghost use Rattle.fold.specs.NextInstance.{squares};
ghost use Rattle.fold.specs.Limits.{most_chunks};

use crate::blocks::power;
use crate::elements::write_pairs;
use residues::modulus;
use ring::element::Element;

// b^(e + e') for parts s and s2 of digits e and e' of z, doubled where they differ.
fn square_weight(nu: usize, b: usize, s: usize, s2: usize) -> i32
    requires base { Base b }
    requires nu_nonzero { (0 < nu) × (s < most_chunks) × (s2 < most_chunks) }
    ensures { result ≡ centred (cond (eqb s s2) (pos 1) (pos 2) *ℤ pos (b ^ (s / nu + s2 / nu))) }
{
    let once = power(b, s / nu + s2 / nu);
    if s == s2 {
        once
    } else {
        modulus::multiply(2, once)
    }
}

// For parts s and s2: chunk i of one digit of z with chunk i of a digit.
fn square(d: usize, tz: usize, nu: usize, b: usize, s: usize, s2: usize) -> Element
    requires degree { Degree d }
    requires base { Base b }
    requires nu_nonzero { (0 < nu) × (tz * nu ≤ most_chunks) }
    requires s_lt_most_chunks { (s < most_chunks) × (s2 < most_chunks) }
    ensures { result.coefficients ≡ array d (squares d tz nu b s s2) }
{
    let both = tz * nu;
    if s < both && s2 < both && s % nu == s2 % nu {
        Element::constant(square_weight(nu, b, s, s2))
    } else {
        Element::additive_identity()
    }
}

// All pairs, as the first elements of `out`. "an empty chunk has the same a in check 6 as a full one"
pub fn write_squares(d: usize, tz: usize, nu: usize, b: usize, parts: usize, out: &mut [i32])
    requires degree { Degree d }
    requires base { Base b }
    requires nu_nonzero { (0 < nu) × (tz * nu ≤ most_chunks) × (parts ≤ most_chunks) }
    requires d_in_bounds { pairs parts * d ≤ length out.old }
    ensures { out.new ≡ over out.old 0 (pair_elements d parts (squares d tz nu b)) }
{
    write_pairs(d, parts, out, |s, s2| square(d, tz, nu, b, s, s2));
}
