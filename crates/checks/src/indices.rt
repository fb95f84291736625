// A test at every index, and the sum of the elements at every index.
ghost use Rattle.std.specs.Prelude.{◌≡◌, ℕ, ◌<◌, Bool};
ghost use Rattle.algebra.specs.Sum.{sum};
ghost use Rattle.ring.specs.Element.{R, Degree, array, every};
ghost use Rattle.ring.specs.declared.element.Element.{Element};

use ring::element::Element;

// Whether the test holds at each index below `count`. It is made at all of them.
pub fn every<F: Fn(usize) -> bool>(count: usize, test: F) -> bool
    requires { (k : ℕ) → k < count → F.pre test k }
    ensures { (p : ℕ → Bool) → ((k : ℕ) → k < count → (b : Bool) → F.post test k b → b ≡ p k) → result ≡ every count p }
{
    let mut all = true;
    for k in 0..count {
        all &= test(k);
    }
    all
}

// The sum of the summands at the indices below `count`.
pub fn sum_of<F: Fn(usize) -> Element>(d: usize, count: usize, summand: F) -> Element
    requires degree { Degree d }
    requires callable { (i : ℕ) → i < count → F.pre summand i }
    ensures { (f : ℕ → (R d).Carrier)
        → ((i : ℕ) → i < count → (x : Element) → F.post summand i x → x.coefficients ≡ array d (f i))
        → result.coefficients ≡ array d (sum (R d) count f) }
{
    let mut acc = Element::additive_identity();
    for i in 0..count {
        acc = acc.sum(d, summand(i));
    }
    acc
}
