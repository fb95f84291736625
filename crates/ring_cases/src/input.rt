// The sizes of a case, brought into their ranges from below.
ghost use Rattle.std.specs.Prelude.{◌≡◌};
ghost use Rattle.ring_cases.specs.Input.{degree_at, base_at, count_at};

use cases::numbers::size;

// The degree of a case, its first number.
pub fn degree_at(xs: &[i32]) -> usize
    ensures { result ≡ degree_at xs.now }
{
    size(xs, 1, 64).max(1)
}

pub fn base_at(xs: &[i32], place: usize) -> usize
    ensures { result ≡ base_at xs.now place }
{
    size(xs, place, 65536).max(2)
}

// A count of digits.
pub fn count_at(xs: &[i32], place: usize) -> usize
    ensures { result ≡ count_at xs.now place }
{
    size(xs, place, 8).max(1)
}
