// The numbers of a case: the number of its call, its sizes, then its lists, and then the length of the list that the call writes.
ghost use Rattle.std.specs.Prelude.{◌≡◌};
ghost use Rattle.bare.specs.Arguments.{constraint_sizes_of};
ghost use Rattle.capi.specs.Codes.{constraint_sizes_from, bare_sizes_from};
ghost use Rattle.bare_cases.specs.Input.{sizes_of};

use capi::sizes::{CBareSizes, CConstraintSizes, CShape};
use cases::input::{bound_at, size_at};

// The last number of a call.
pub const LAST: usize = 4;

// Which number is that of a turn, and where the lists of a case begin: after its call and ten sizes.
pub const TURN: usize = 10;

pub const LISTS: usize = 11;

// The sizes of a case: they may be any that an i64 holds, so that the calls refuse them.
pub fn read_sizes(wides: &[i64]) -> CBareSizes
    ensures { result ≡ sizes_of wides.now }
{
    CBareSizes {
        shape: CShape {
            d: size_at(wides, 1),
            n: size_at(wides, 2),
            r: size_at(wides, 3),
        },
        k: size_at(wides, 4),
        l: size_at(wides, 5),
        w: size_at(wides, 6),
        kappa: size_at(wides, 7),
        bound: bound_at(wides, 8),
        z_bound: bound_at(wides, 9),
    }
}

pub fn constraint_sizes(sizes: CBareSizes) -> CConstraintSizes
    ensures { constraint_sizes_from result ≡ constraint_sizes_of (bare_sizes_from sizes) }
{
    CConstraintSizes {
        shape: sizes.shape,
        k: sizes.k,
        l: sizes.l,
        w: sizes.w,
    }
}
