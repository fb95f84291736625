// The bare level, SPECIFICATION 14: its sizes and checks, and where its opening's blocks stand.
#![tactic(auto)]

pub mod places;

ghost use Rattle.bare.specs.Checks.{bare_check_number};

use fold::Shape;
use fold::answers::Numbered;

// The sizes of the bare level's verifier; `bound` is β² and `z_bound` the bound on z.
#[derive(Clone, Copy)]
pub struct BareSizes {
    pub shape: Shape,
    pub k: usize,
    pub l: usize,
    pub w: usize,
    pub kappa: usize,
    pub bound: u64,
    pub z_bound: u64,
}

// A check of the bare level's verifier, by its number.
#[derive(Clone, Copy, PartialEq, Eq, Debug)]
pub enum BareCheck {
    ProjectionLength = 1,
    ConstantTerms = 2,
    Amortized = 3,
    GarbageOfZ = 4,
    GarbageOfPhi = 5,
    Aggregate = 6,
    LengthOfZ = 7,
}

impl Numbered for BareCheck {
    ghost number_of = { bare_check_number };

    fn number(self) -> u8 {
        self as u8
    }
}
