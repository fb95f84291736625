// The numbers of a case: the number of its call, its sizes, then its lists, and then the lengths of the lists that the call writes.
ghost use Rattle.std.specs.Prelude.{◌≡◌};
ghost use Rattle.fold.specs.Arguments.{commit_sizes_of, garbage_sizes_of};
ghost use Rattle.capi.specs.Codes.{commit_sizes_from, garbage_sizes_from, sizes_from};
ghost use Rattle.fold_cases.specs.Input.{sizes_of};

use capi::sizes::{CCommitSizes, CGarbageSizes, CShape, CSizes};
use cases::input::{bound_at, size_at};

// The last number of a call with z in two digits, and how many have one: 7 and 8 are 5 and 6 with one.
pub const LAST: usize = 6;

pub const ONE_DIGIT: usize = 2;

// Where the lists of a case begin: after its call and sixteen sizes.
pub const LISTS: usize = 17;

// The sizes of a case: they may be any that an i64 holds, so that the calls refuse them.
pub fn read_sizes(wides: &[i64], one_digit: u8) -> CSizes
    ensures { result ≡ sizes_of wides.now one_digit }
{
    CSizes {
        shape: CShape {
            d: size_at(wides, 1),
            n: size_at(wides, 2),
            r: size_at(wides, 3),
        },
        k: size_at(wides, 4),
        l: size_at(wides, 5),
        w: size_at(wides, 6),
        kappa: size_at(wides, 7),
        kappa1: size_at(wides, 8),
        kappa2: size_at(wides, 9),
        b: size_at(wides, 10),
        b1: size_at(wides, 11),
        b2: size_at(wides, 12),
        t1: size_at(wides, 13),
        t2: size_at(wides, 14),
        bound: bound_at(wides, 15),
        target: bound_at(wides, 16),
        one_digit,
    }
}

pub fn commit_sizes(sizes: CSizes) -> CCommitSizes
    ensures { commit_sizes_from result ≡ commit_sizes_of (sizes_from sizes) }
{
    CCommitSizes {
        shape: sizes.shape,
        kappa: sizes.kappa,
        kappa1: sizes.kappa1,
        b1: sizes.b1,
        b2: sizes.b2,
        t1: sizes.t1,
        t2: sizes.t2,
    }
}

pub fn garbage_sizes(sizes: CSizes) -> CGarbageSizes
    ensures { garbage_sizes_from result ≡ garbage_sizes_of (sizes_from sizes) }
{
    CGarbageSizes {
        shape: sizes.shape,
        k: sizes.k,
        l: sizes.l,
        w: sizes.w,
        kappa2: sizes.kappa2,
        b1: sizes.b1,
        t1: sizes.t1,
    }
}
