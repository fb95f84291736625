// The answers of every call of the fold, SPECIFICATION 6 and 7, and the sizes that they take.
#![tactic(auto)]

pub mod answers;
pub mod chunks;
pub mod counts;
pub mod limits;
pub mod places;

ghost use Rattle.std.specs.Prelude.{◌≡◌};
ghost use Rattle.fold.specs.Arguments.{count_of, base_of, based_sizes, in_two_digits};

// Degree, rank and number of parts.
#[derive(Clone, Copy)]
pub struct Shape {
    pub d: usize,
    pub n: usize,
    pub r: usize,
}

// The sizes of the constraints: the shape, and how many whole constraints, constant-term constraints and projection rows there are.
#[derive(Clone, Copy)]
pub struct ConstraintSizes {
    pub shape: Shape,
    pub k: usize,
    pub l: usize,
    pub w: usize,
}

// The sizes of message 1.
#[derive(Clone, Copy)]
pub struct CommitSizes {
    pub shape: Shape,
    pub kappa: usize,
    pub kappa1: usize,
    pub b1: usize,
    pub b2: usize,
    pub t1: usize,
    pub t2: usize,
}

// The sizes of message 4.
#[derive(Clone, Copy)]
pub struct GarbageSizes {
    pub shape: Shape,
    pub k: usize,
    pub l: usize,
    pub w: usize,
    pub kappa2: usize,
    pub b1: usize,
    pub t1: usize,
}

// The digits of z: one, or two to a base.
#[derive(Clone, Copy)]
pub enum ZDigits {
    One,
    Two(usize),
}

// The sizes of the verifier; `bound` is β² and `target` is β'².
#[derive(Clone, Copy)]
pub struct StatementSizes {
    pub shape: Shape,
    pub k: usize,
    pub l: usize,
    pub w: usize,
    pub kappa: usize,
    pub kappa1: usize,
    pub kappa2: usize,
    pub z: ZDigits,
    pub b1: usize,
    pub b2: usize,
    pub t1: usize,
    pub t2: usize,
    pub bound: u64,
    pub target: u64,
}

// The same sizes with the base b of z's digits, as a sheet's header has them and as the work takes them. How many digits z has is said beside them, by tz.
#[derive(Clone, Copy)]
pub struct Sizes {
    pub shape: Shape,
    pub k: usize,
    pub l: usize,
    pub w: usize,
    pub kappa: usize,
    pub kappa1: usize,
    pub kappa2: usize,
    pub b: usize,
    pub b1: usize,
    pub b2: usize,
    pub t1: usize,
    pub t2: usize,
    pub bound: u64,
    pub target: u64,
}

// The sizes of an opening and of its cut into ν and μ chunks; z has one digit or two.
#[derive(Clone, Copy)]
pub struct PartSizes {
    pub shape: Shape,
    pub kappa: usize,
    pub t1: usize,
    pub t2: usize,
    pub nu: usize,
    pub mu: usize,
    pub one_digit: bool,
}

impl ZDigits {
    // How many digits z has.
    pub fn count(self) -> usize
        ensures { result ≡ count_of self }
    {
        match self {
            ZDigits::One => 1,
            ZDigits::Two(_) => 2,
        }
    }

    // Their base. One digit has none: 2 stands in its place, and nothing depends on it.
    pub fn base(self) -> usize
        ensures { result ≡ base_of self }
    {
        match self {
            ZDigits::One => 2,
            ZDigits::Two(b) => b,
        }
    }
}

impl Sizes {
    // The sizes of a statement whose z has two digits to base b, as on a sheet.
    pub fn in_two_digits(self) -> StatementSizes
        ensures { result ≡ in_two_digits self }
    {
        let shape = self.shape;
        StatementSizes {
            shape,
            k: self.k,
            l: self.l,
            w: self.w,
            kappa: self.kappa,
            kappa1: self.kappa1,
            kappa2: self.kappa2,
            z: ZDigits::Two(self.b),
            b1: self.b1,
            b2: self.b2,
            t1: self.t1,
            t2: self.t2,
            bound: self.bound,
            target: self.target,
        }
    }
}

impl StatementSizes {
    // The same sizes with the base of z's digits.
    pub fn based(self) -> Sizes
        ensures { result ≡ based_sizes self }
    {
        let shape = self.shape;
        let z = self.z;
        Sizes {
            shape,
            k: self.k,
            l: self.l,
            w: self.w,
            kappa: self.kappa,
            kappa1: self.kappa1,
            kappa2: self.kappa2,
            b: z.base(),
            b1: self.b1,
            b2: self.b2,
            t1: self.t1,
            t2: self.t2,
            bound: self.bound,
            target: self.target,
        }
    }
}
