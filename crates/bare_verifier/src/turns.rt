// The turns of a bare opening: their elements, and what they sum to.
ghost use Rattle.std.specs.Prelude.{◌≡◌, ◌+◌, ◌<◌};
ghost use Rattle.algebra.specs.Sum.{sum};
ghost use Rattle.ring.specs.Element.{R, el, array};
ghost use Rattle.bare.specs.Opening.{turn_at};
ghost use Rattle.bare.specs.Verdict.{in_turn};
ghost use Rattle.bare.specs.Known.BareFacts.{BareOpeningFacts};
ghost use Rattle.bare_verifier.specs.Summands.{turn_summand};

use bare::BareSizes;
use bare::places::{TURN, turns_place};
use ring::element::Element;

// Element e of turn i, both from 0.
pub fn turn_element(sizes: BareSizes, c: &[i32], opening: &[i32], e: usize, i: usize) -> Element
    requires bare_opening_facts { BareOpeningFacts sizes c.now opening.now }
    requires e_bound { (e < 4) × (i < sizes.shape.r) }
    ensures { result.coefficients ≡ array sizes.shape.d (turn_at sizes.shape.d sizes.shape.n sizes.shape.r sizes.kappa opening.now e i) }
{
    let start = turns_place(sizes.shape.n, sizes.shape.r, sizes.kappa);
    let place = start + (i * TURN + e);
    Element::from_slice(sizes.shape.d, opening, place)
}

// (mixed)·c_i + (own)·c_i², where the mixed one is element e of turn i and its own the one after it.
fn turn_summand(sizes: BareSizes, c: &[i32], opening: &[i32], e: usize, i: usize) -> Element
    requires bare_opening_facts { BareOpeningFacts sizes c.now opening.now }
    requires e_bound { (e < 3) × (i < sizes.shape.r) }
    ensures { result.coefficients ≡ array sizes.shape.d (turn_summand sizes.shape.d sizes.shape.n sizes.shape.r sizes.kappa c.now opening.now e i) }
{
    let d = sizes.shape.d;
    let challenge = Element::from_slice(d, c, i);
    let mixed = turn_element(sizes, c, opening, e, i);
    let once = mixed.product(d, challenge);
    let own = turn_element(sizes, c, opening, e + 1, i);
    let square = challenge.product(d, challenge);
    let twice = own.product(d, square);
    once.sum(d, twice)
}

// The sum over all turns of (mixed)·c_i + (own)·c_i².
pub fn turn_sum(sizes: BareSizes, c: &[i32], opening: &[i32], e: usize) -> Element
    requires bare_opening_facts { BareOpeningFacts sizes c.now opening.now }
    requires e_bound { e < 3 }
    ensures { result.coefficients ≡ array sizes.shape.d (in_turn (R sizes.shape.d) sizes.shape.r
        (turn_at sizes.shape.d sizes.shape.n sizes.shape.r sizes.kappa opening.now e)
        (turn_at sizes.shape.d sizes.shape.n sizes.shape.r sizes.kappa opening.now (e + 1)) (el sizes.shape.d c.now)) }
{
    let d = sizes.shape.d;
    let mut acc = Element::additive_identity();
    for i in 0..sizes.shape.r {
        acc = acc.sum(d, turn_summand(sizes, c, opening, e, i));
    }
    acc
}

// The sum of the own φ of all turns.
pub fn own_phi_sum(sizes: BareSizes, c: &[i32], opening: &[i32]) -> Element
    requires { BareOpeningFacts sizes c.now opening.now }
    ensures { result.coefficients ≡ array sizes.shape.d (sum (R sizes.shape.d) sizes.shape.r
        (turn_at sizes.shape.d sizes.shape.n sizes.shape.r sizes.kappa opening.now 1)) }
{
    let d = sizes.shape.d;
    let mut acc = Element::additive_identity();
    for i in 0..sizes.shape.r {
        acc = acc.sum(d, turn_element(sizes, c, opening, 1, i));
    }
    acc
}
