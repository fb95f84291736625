// What the digits of an opening recompose to.
ghost use Rattle.std.specs.Prelude.{◌≡◌, ◌+◌, ◌*◌, ◌<◌, ◌≤◌, length};
ghost use Rattle.integers.specs.Over.{over};
ghost use Rattle.ring.specs.Element.{Degree, el, array};
ghost use Rattle.residues.specs.Digits.{Base};
ghost use Rattle.fold.specs.Messages.{elements};
ghost use Rattle.fold.specs.Opening.{block, z_of, t_of};
ghost use Rattle.checks.specs.Places.{garbage_at};

use ring::element::Element;

// Row k of t_i, of the t digits from element `place` of the opening on.
pub fn t_of(
    d: usize,
    kappa: usize,
    b1: usize,
    t1: usize,
    opening: &[i32],
    place: usize,
    i: usize,
    k: usize,
) -> Element
    requires degree { Degree d }
    requires base { Base b1 }
    requires t1_nonzero { (0 < t1) × (k < kappa) }
    requires d_in_bounds { (place + (i * t1 + t1) * kappa) * d ≤ length opening.now }
    ensures { result.coefficients ≡ array d (t_of d kappa b1 t1 (block d opening.now place) i k) }
{
    let first = place + i * t1 * kappa + k;
    Element::recompose(d, b1, t1, opening, first, kappa)
}

// Garbage element number q, of the g or h digits from element `place` of the opening on.
pub fn garbage_of(d: usize, b: usize, t: usize, opening: &[i32], place: usize, q: usize) -> Element
    requires degree { Degree d }
    requires base { Base b }
    requires t_nonzero { 0 < t }
    requires d_in_bounds { (place + (q * t + t)) * d ≤ length opening.now }
    ensures { result.coefficients ≡ array d (garbage_at d b t (block d opening.now place) q) }
{
    let first = place + q * t;
    Element::recompose(d, b, t, opening, first, 1)
}

// The n elements of z, of tz digits each, at the start of z.
pub fn write_z(tz: usize, d: usize, n: usize, b: usize, opening: &[i32], z: &mut [i32])
    requires degree { Degree d }
    requires base { Base b }
    requires tz_nonzero { 0 < tz }
    requires d_in_bounds { (tz * n * d ≤ length opening.now) × (n * d ≤ length z.old) }
    ensures { z.new ≡ over z.old 0 (elements d n (z_of d n tz b (el d opening.now))) }
{
    for k in 0..n {
        Element::recompose(d, b, tz, opening, k, n).store(d, z, k);
    }
}
