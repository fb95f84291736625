// The structs of sizes for C, laid out as bindings/c/lizkarg.h declares them, and the library's sizes from them. They are C's own: where a struct of
// the library changes, these stay.
ghost use Rattle.std.specs.Prelude.{◌≡◌};
ghost use Rattle.capi.specs.Codes.{shape_from, commit_sizes_from, garbage_sizes_from, z_from, sizes_from, sheet_sizes_from, one_from, part_sizes_from, constraint_sizes_from, bare_sizes_from};

use bare::BareSizes;
use fold::{
    CommitSizes, ConstraintSizes, GarbageSizes, PartSizes, Shape, Sizes, StatementSizes, ZDigits,
};

// Degree, rank and number of parts.
#[repr(C)]
#[derive(Clone, Copy)]
pub struct CShape {
    pub d: usize,
    pub n: usize,
    pub r: usize,
}

// The sizes of message 1.
#[repr(C)]
#[derive(Clone, Copy)]
pub struct CCommitSizes {
    pub shape: CShape,
    pub kappa: usize,
    pub kappa1: usize,
    pub b1: usize,
    pub b2: usize,
    pub t1: usize,
    pub t2: usize,
}

// The sizes of message 4.
#[repr(C)]
#[derive(Clone, Copy)]
pub struct CGarbageSizes {
    pub shape: CShape,
    pub k: usize,
    pub l: usize,
    pub w: usize,
    pub kappa2: usize,
    pub b1: usize,
    pub t1: usize,
}

// The sizes of the verifier; `bound` is β² and `target` is β'². Where `one_digit` is 0, z has two digits to base b; else it has one, and b is not
// looked at.
#[repr(C)]
#[derive(Clone, Copy)]
pub struct CSizes {
    pub shape: CShape,
    pub k: usize,
    pub l: usize,
    pub w: usize,
    pub kappa: usize,
    pub kappa1: usize,
    pub kappa2: usize,
    pub b: usize,
    pub b1: usize,
    pub b2: usize,
    pub t1: usize,
    pub t2: usize,
    pub bound: u64,
    pub target: u64,
    pub one_digit: u8,
}

// The sizes of an opening and of its cut into ν and μ chunks.
#[repr(C)]
#[derive(Clone, Copy)]
pub struct CPartSizes {
    pub shape: CShape,
    pub kappa: usize,
    pub t1: usize,
    pub t2: usize,
    pub nu: usize,
    pub mu: usize,
    pub one_digit: u8,
}

// The sizes of both kinds of constraints.
#[repr(C)]
#[derive(Clone, Copy)]
pub struct CConstraintSizes {
    pub shape: CShape,
    pub k: usize,
    pub l: usize,
    pub w: usize,
}

// The sizes of the bare level's verifier; `bound` is β² and `z_bound` the bound on z.
#[repr(C)]
#[derive(Clone, Copy)]
pub struct CBareSizes {
    pub shape: CShape,
    pub k: usize,
    pub l: usize,
    pub w: usize,
    pub kappa: usize,
    pub bound: u64,
    pub z_bound: u64,
}

impl From<CShape> for Shape {
    ghost from_gives = { λ c r. r ≡ shape_from c };

    fn from(c: CShape) -> Shape {
        Shape {
            d: c.d,
            n: c.n,
            r: c.r,
        }
    }
}

impl From<CCommitSizes> for CommitSizes {
    ghost from_gives = { λ c r. r ≡ commit_sizes_from c };

    fn from(c: CCommitSizes) -> CommitSizes {
        CommitSizes {
            shape: c.shape.into(),
            kappa: c.kappa,
            kappa1: c.kappa1,
            b1: c.b1,
            b2: c.b2,
            t1: c.t1,
            t2: c.t2,
        }
    }
}

impl From<CGarbageSizes> for GarbageSizes {
    ghost from_gives = { λ c r. r ≡ garbage_sizes_from c };

    fn from(c: CGarbageSizes) -> GarbageSizes {
        GarbageSizes {
            shape: c.shape.into(),
            k: c.k,
            l: c.l,
            w: c.w,
            kappa2: c.kappa2,
            b1: c.b1,
            t1: c.t1,
        }
    }
}

fn z_from(one_digit: u8, b: usize) -> ZDigits
    ensures { result ≡ z_from one_digit b }
{
    if one_digit == 0 {
        ZDigits::Two(b)
    } else {
        ZDigits::One
    }
}

impl From<CSizes> for StatementSizes {
    ghost from_gives = { λ c r. r ≡ sizes_from c };

    fn from(c: CSizes) -> StatementSizes {
        StatementSizes {
            shape: c.shape.into(),
            k: c.k,
            l: c.l,
            w: c.w,
            kappa: c.kappa,
            kappa1: c.kappa1,
            kappa2: c.kappa2,
            z: z_from(c.one_digit, c.b),
            b1: c.b1,
            b2: c.b2,
            t1: c.t1,
            t2: c.t2,
            bound: c.bound,
            target: c.target,
        }
    }
}

// Those of a sheet, which keeps two digits: `one_digit` is not looked at.
impl From<CSizes> for Sizes {
    ghost from_gives = { λ sheet r. r ≡ sheet_sizes_from sheet };

    fn from(sheet: CSizes) -> Sizes {
        Sizes {
            shape: sheet.shape.into(),
            k: sheet.k,
            l: sheet.l,
            w: sheet.w,
            kappa: sheet.kappa,
            kappa1: sheet.kappa1,
            kappa2: sheet.kappa2,
            b: sheet.b,
            b1: sheet.b1,
            b2: sheet.b2,
            t1: sheet.t1,
            t2: sheet.t2,
            bound: sheet.bound,
            target: sheet.target,
        }
    }
}

fn one_from(one_digit: u8) -> bool
    ensures { result ≡ one_from one_digit }
{
    one_digit != 0
}

impl From<CPartSizes> for PartSizes {
    ghost from_gives = { λ c r. r ≡ part_sizes_from c };

    fn from(c: CPartSizes) -> PartSizes {
        PartSizes {
            shape: c.shape.into(),
            kappa: c.kappa,
            t1: c.t1,
            t2: c.t2,
            nu: c.nu,
            mu: c.mu,
            one_digit: one_from(c.one_digit),
        }
    }
}

impl From<CConstraintSizes> for ConstraintSizes {
    ghost from_gives = { λ c r. r ≡ constraint_sizes_from c };

    fn from(c: CConstraintSizes) -> ConstraintSizes {
        ConstraintSizes {
            shape: c.shape.into(),
            k: c.k,
            l: c.l,
            w: c.w,
        }
    }
}

impl From<CBareSizes> for BareSizes {
    ghost from_gives = { λ c r. r ≡ bare_sizes_from c };

    fn from(c: CBareSizes) -> BareSizes {
        let CBareSizes { bound, z_bound, .. } = c;
        BareSizes {
            shape: c.shape.into(),
            k: c.k,
            l: c.l,
            w: c.w,
            kappa: c.kappa,
            bound,
            z_bound,
        }
    }
}
