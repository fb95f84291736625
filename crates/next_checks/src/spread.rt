// The coefficients, which stand at the end of φ, moved to their parts: for each part its chunk of them, and zero on the padding.
ghost use Rattle.std.specs.Prelude.{◌≡◌, ◌++◌, ◌+◌, ◌*◌, ◌≤◌, length, take};
ghost use Rattle.integers.specs.Over.{over};
ghost use Rattle.integers.specs.Flat.{flat};
ghost use Rattle.ring.specs.Element.{Degree, array};
ghost use Rattle.fold.specs.Arguments.{VerifySized};
ghost use Rattle.fold.specs.Messages.{elements};
ghost use Rattle.next_checks.specs.Known.Facts.{CutFacts};
ghost use Rattle.next_checks.specs.Spread.{chunk_entry, spread_entry};

use crate::cut::Cut;
use fold::Sizes;
use fold::chunks::chunk_width;
use ring::element::Element;

// Element k of a chunk of `size` elements that starts at element `from`; past its end, zero.
fn chunk_entry(d: usize, xs: &[i32], from: usize, size: usize, k: usize) -> Element
    requires degree { Degree d }
    requires d_in_bounds { (from + size) * d ≤ length xs.now }
    ensures { result.coefficients ≡ array d (chunk_entry d xs.now from size k) }
{
    if k < size {
        Element::from_slice(d, xs, from + k)
    } else {
        Element::additive_identity()
    }
}

// A chunk moved to element `at` with its padding. It starts no earlier, so that each element is read before it is written over.
fn move_chunk(d: usize, rank: usize, from: usize, size: usize, out: &mut [i32], at: usize)
    requires degree { Degree d }
    requires at_le_from { (at ≤ from) × ((from + size) * d ≤ length out.old) × ((at + rank) * d ≤ length out.old) }
    ensures { out.new ≡ over out.old (at * d) (elements d rank (chunk_entry d out.old from size)) }
{
    for k in 0..rank {
        let element = chunk_entry(d, out, from, size, k);
        element.store(d, out, at + k);
    }
}

// The chunks of all parts of the constraint at element `at`.
fn spread(sizes: Sizes, cut: Cut, out: &mut [i32], at: usize)
    requires verify_sized { VerifySized sizes }
    requires cut_facts { CutFacts sizes cut }
    requires d_in_bounds { (at + cut.size) * sizes.shape.d ≤ length out.old }
    ensures { out.new ≡ over out.old ((at + cut.pairs) * sizes.shape.d)
        (flat cut.parts (λ s. elements sizes.shape.d cut.rank (spread_entry sizes cut out.old at s))) }
{
    let mut start = at + cut.z;
    let mut place = at + cut.pairs;
    for s in 0..cut.parts {
        let size = chunk_width(cut.tz, sizes.shape.n, cut.nu, cut.m, cut.mu, s);
        move_chunk(sizes.shape.d, cut.rank, start, size, out, place);
        start += size;
        place += cut.rank;
    }
}

// The constraint at element `at` finished, where its a and its coefficients are written: φ, and then b.
pub fn finish(sizes: Sizes, cut: Cut, b: Element, out: &mut [i32], at: usize)
    requires verify_sized { VerifySized sizes }
    requires cut_facts { CutFacts sizes cut }
    requires d_in_bounds { (at + cut.size + 1) * sizes.shape.d ≤ length out.old }
    ensures { out.new ≡ over out.old ((at + cut.pairs) * sizes.shape.d)
        (flat cut.parts (λ s. elements sizes.shape.d cut.rank (spread_entry sizes cut out.old at s))
        ++ take sizes.shape.d b.coefficients) }
{
    spread(sizes, cut, out, at);
    b.store(sizes.shape.d, out, at + cut.size);
}
