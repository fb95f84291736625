// SPECIFICATION 7.15: no low digit of an opening has an absolute value of more than half its base.
ghost use Rattle.std.specs.Prelude.{◌≡◌, ◌+◌, ◌*◌, ◌<◌, ◌≤◌, length, drop};
ghost use Rattle.residues.specs.Digits.{Base};
ghost use Rattle.ring.specs.Element.{Degree};
ghost use Rattle.fold.specs.Arguments.{VerifySized};
ghost use Rattle.fold.specs.Limits.{most_rank, most_digits};
ghost use Rattle.fold.specs.Refusals.{low_narrow, narrow_digits};
ghost use Rattle.fold.specs.Sizes.{opening_size};

use fold::counts::pair_count;
use fold::{Sizes, places};
use residues::range::are_narrow;

// The low digits of so many groups, each of t digits of `rows` elements; the first starts at an element's place.
fn low_narrow(
    d: usize,
    place: usize,
    count: usize,
    t: usize,
    rows: usize,
    base: usize,
    xs: &[i32],
) -> bool
    requires degree { Degree d }
    requires t_nonzero { (0 < t) × (t ≤ most_digits) × (rows ≤ most_rank) }
    requires base { Base base }
    requires d_in_bounds { place * d + count * (t * (rows * d)) ≤ length xs.now }
    ensures { result ≡ low_narrow d count t rows base (drop (place * d) xs.now) }
{
    let width = rows * d;
    let group = t * width;
    let low = (t - 1) * width;
    let start = place * d;
    let mut all = true;
    for i in 0..count {
        let at = start + i * group;
        let end = at + low;
        all &= are_narrow(base, &xs[at..end]);
    }
    all
}

// Row 15, where z has tz digits: z is one group, t has one for each part, g and h have one for each pair.
pub fn narrow_digits(tz: usize, sizes: Sizes, opening: &[i32]) -> bool
    requires tz_nonzero { (0 < tz) × (tz ≤ 2) }
    requires verify_sized { VerifySized sizes }
    requires opening_len { length opening.now ≡ opening_size tz sizes.shape.n sizes.shape.r sizes.kappa sizes.t1 sizes.t2 * sizes.shape.d }
    ensures { result ≡ narrow_digits sizes.shape.d sizes.shape.n sizes.shape.r tz sizes.kappa sizes.b sizes.b1 sizes.b2
        sizes.t1 sizes.t2 opening.now }
{
    let d = sizes.shape.d;
    let r = sizes.shape.r;
    let pairs = pair_count(r);
    let t_place = places::t_place(tz, sizes);
    let g_place = places::g_place(tz, sizes);
    let h_place = places::h_place(tz, sizes);
    low_narrow(d, 0, 1, tz, sizes.shape.n, sizes.b, opening)
        & low_narrow(d, t_place, r, sizes.t1, sizes.kappa, sizes.b1, opening)
        & low_narrow(d, g_place, pairs, sizes.t2, 1, sizes.b2, opening)
        & low_narrow(d, h_place, pairs, sizes.t1, 1, sizes.b1, opening)
}
