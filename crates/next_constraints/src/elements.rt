// Elements written one after the other, each as a function gives it.
ghost use Rattle.std.specs.Prelude.{◌≡◌, ℕ, ◌+◌, ◌*◌, ◌<◌, ◌≤◌, List, length, ℤ};
ghost use denote.Ref.{MutBor};
ghost use Rattle.integers.specs.Over.{over};
ghost use Rattle.integers.specs.Flat.{flat};
ghost use Rattle.ring.specs.Element.{R, Degree};
ghost use Rattle.fold.specs.Sizes.{pairs};
ghost use Rattle.fold.specs.Messages.{elements};
ghost use Rattle.fold.specs.PairElements.{pair_elements};
ghost use Rattle.next_constraints.specs.Entries.{Gives, GivesPairs, WritesBlocks};

use ring::element::Element;

// Elements 0 to count - 1, written from element `at` on.
pub(crate) fn write_each<F: Fn(usize) -> Element>(
    d: usize,
    count: usize,
    out: &mut [i32],
    at: usize,
    entry: F,
)
    requires degree { Degree d }
    requires d_in_bounds { (at + count) * d ≤ length out.old }
    requires callable { (k : ℕ) → k < count → F.pre entry k }
    ensures { (x : ℕ → (R d).Carrier) → Gives d count (F.post entry) x → out.new ≡ over out.old (at * d) (elements d count x) }
{
    for k in 0..count {
        entry(k).store(d, out, at + k);
    }
}

// The elements of the pairs i ≤ j below r, by i and then j, as the first elements of `out`.
pub(crate) fn write_pairs<F: Fn(usize, usize) -> Element>(
    d: usize,
    r: usize,
    out: &mut [i32],
    entry: F,
)
    requires degree { Degree d }
    requires d_in_bounds { pairs r * d ≤ length out.old }
    requires callable { (i j : ℕ) → i ≤ j → j < r → F.pre entry i j }
    ensures { (x : ℕ → ℕ → (R d).Carrier) → GivesPairs d r (F.post entry) x → out.new ≡ over out.old 0 (pair_elements d r x) }
{
    let mut at = 0;
    for i in 0..r {
        write_each(d, r - i, out, at, |k| entry(i, i + k));
        at += r - i;
    }
}

// `count` blocks of `width` elements each, written from element `at` on by a function that takes a block's number and place.
pub fn write_blocks<F: Fn(usize, usize, &mut [i32])>(
    d: usize,
    count: usize,
    width: usize,
    out: &mut [i32],
    at: usize,
    write: F,
)
    requires degree { Degree d }
    requires d_in_bounds { (at + count * width) * d ≤ length out.old }
    requires callable { (k place : ℕ) (part : MutBor (List ℤ)) → k < count → (place + width) * d ≤ length part.now → F.pre write k place part }
    ensures { (block : ℕ → List ℤ) → WritesBlocks d count width (F.post write) block → out.new ≡ over out.old (at * d) (flat count block) }
{
    let mut place = at;
    for k in 0..count {
        write(k, place, out);
        place += width;
    }
}
