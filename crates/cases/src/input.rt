// What the programs over the library's calls read: sizes, and the lengths of the lists that a call writes.
ghost use Rattle.std.specs.Prelude.{◌≡◌, pos, length, replicate, take};
ghost use Rattle.cases.specs.Numbers.{size_at};
ghost use Rattle.cases.specs.Input.{wide_size};

use crate::numbers::{size, wide_at, wrapped};

// The longest list that a call may write.
pub const ROOM: usize = 8192;

// What fills such a list before the call.
pub const FILL: i32 = 77;

pub fn bound_at(wides: &[i64], place: usize) -> u64
    ensures { result ≡ wide_size wides.now place }
{
    wrapped(wide_at(wides, place))
}

// The size at a place: it may be any of 64 bits, so that the calls refuse it.
pub fn size_at(wides: &[i64], place: usize) -> usize
    ensures { result ≡ wide_size wides.now place }
{
    bound_at(wides, place) as usize
}

// The length of a list to write, 0 where it is too long. The filled array has a part that long.
pub fn count_at(lengths: &[i32], place: usize) -> usize
    ensures { (result ≡ size_at 8192 lengths.now place) × (result ≡ length (take result (replicate 8192 (pos 77)))) }
{
    size(lengths, place, ROOM)
}
