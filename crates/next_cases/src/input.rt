// The numbers of a case: its kind, its eighteen sizes, then its lists. What is missing counts as 0.
ghost use Rattle.std.specs.Prelude.{◌≡◌, pos};
ghost use Rattle.cases.specs.Numbers.{size_of};
ghost use Rattle.next_cases.specs.Input.{sizes_of};

use capi::sizes::{CShape, CSizes};
use cases::input::{bound_at, size_at};

// The last kind with z in two digits, and how many have one: 4, 5 and 6 are 1, 2 and 3 with one.
pub const LAST: usize = 3;

pub const ONE_DIGIT: usize = 3;

// Where the sizes of a case begin, how many they are, which numbers are ν and μ, and what follows the sizes.
pub const SIZES: usize = 1;

pub const SIZE_COUNT: usize = 18;

pub const NU: usize = 15;

pub const MU: usize = 16;

pub const LISTS: usize = 19;

// The longest list that is written here.
pub const ROOM: usize = 32768;

// The sizes of a fold, from the first number on; ν and μ are left out.
pub fn read_sizes(wides: &[i64], one_digit: u8) -> CSizes
    ensures { result ≡ sizes_of wides.now one_digit }
{
    CSizes {
        shape: CShape {
            d: size_at(wides, 0),
            n: size_at(wides, 1),
            r: size_at(wides, 2),
        },
        k: size_at(wides, 3),
        l: size_at(wides, 4),
        w: size_at(wides, 5),
        kappa: size_at(wides, 6),
        kappa1: size_at(wides, 7),
        kappa2: size_at(wides, 8),
        b: size_at(wides, 9),
        b1: size_at(wides, 10),
        b2: size_at(wides, 11),
        t1: size_at(wides, 12),
        t2: size_at(wides, 13),
        bound: bound_at(wides, 16),
        target: bound_at(wides, 17),
        one_digit,
    }
}

// The length of a list to write, 0 where it is too long.
pub fn fitting(count: usize) -> usize
    ensures { result ≡ size_of 32768 (pos count) }
{
    if count > ROOM { 0 } else { count }
}
