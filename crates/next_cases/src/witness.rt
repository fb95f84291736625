// The next witness, put together from its parts.
ghost use Rattle.std.specs.Prelude.{◌≡◌, length, take};
ghost use Rattle.integers.specs.Over.{over};
ghost use Rattle.next_cases.specs.Witness.{next_witness};

use crate::part::next_part;
use capi::sizes::CPartSizes;
use cases::lists::put;

// The next witness: each part of the opening with zeros after it, `width` numbers in all.
pub fn write_witness(
    sizes: CPartSizes,
    parts: usize,
    width: usize,
    opening: &[i32],
    out: &mut [i32],
)
    ensures { out.new ≡ over out.old 0
        (take (length out.old) (next_witness sizes parts width opening.now)) }
{
    let mut at = 0;
    for i in 0..parts {
        at = put(out, at, next_part(sizes, i + 1, opening), width);
    }
}
