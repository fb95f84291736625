// What the calls answer: SPECIFICATION 6 and 7. A refusal is an error, and so is a check that fails.
ghost use Rattle.std.specs.Prelude.{◌≡◌, ℕ, if◌then◌else◌, true, false, MatchResult};
ghost use Rattle.fold.specs.Rows.{row_of, check_number};
ghost use Rattle.fold.specs.Answers.{Refused, Judged, Failed, verdict_of, judgement_of, written_of, next_of};
ghost use Rattle.fold.specs.Codes.{coded};

use ring::element::Element;

// A row of SPECIFICATION 7, by its number: why a call is refused.
#[derive(Clone, Copy, PartialEq, Eq, Debug)]
pub enum Refusal {
    // A degree that is not listed.
    Degree = 1,
    // A rank, a number of parts, constraints or projection rows, or a part's or turn's number outside its range.
    Size = 2,
    CommitmentRank = 3,
    // A base or a number of digits.
    Digits = 4,
    Chunks = 5,
    LengthBound = 6,
    // The length of a slice is not what the sizes give.
    SliceLength = 7,
    // A coefficient out of range, or a number past the degree that is not zero.
    Coefficient = 8,
    ProjectionEntry = 9,
    Challenge = 10,
    // The next instance's rank is too large.
    NextRank = 11,
    // A sheet that is laid out otherwise.
    Layout = 12,
    // A buffer shorter than the text.
    Buffer = 13,
    // A mixed product at the bare level.
    MixedProduct = 14,
    // A low digit of more than half its base.
    LowDigit = 15,
}

// A check of the verifier, by its number.
#[derive(Clone, Copy, PartialEq, Eq, Debug)]
pub enum Check {
    ProjectionLength = 1,
    ConstantTerms = 2,
    FirstOuter = 3,
    SecondOuter = 4,
    Amortized = 5,
    SelfProduct = 6,
    Linear = 7,
    Relation = 8,
    OpeningLength = 9,
}

// What has a number in SPECIFICATION 6.
pub trait Numbered {
    ghost number_of: { Self → ℕ };

    fn number(self) -> u8
        ensures { result ≡ number_of self };
}

impl Numbered for Check {
    ghost number_of = { check_number };

    fn number(self) -> u8 {
        self as u8
    }
}

impl Refusal {
    pub fn number(self) -> u8
        ensures { result ≡ row_of self }
    {
        self as u8
    }
}

// A judgement: accepted with the margin of the last check, or failed with the first check that fails.
pub type Verdict<E = Check> = Result<u64, E>;

// What a call answers: a refusal, or what it was asked for. The verifier's answer carries the verdict.
pub type Answer<T> = Result<T, Refusal>;

// A test that has to pass, or what else the answer is.
pub fn require<E: Copy>(passes: bool, otherwise: E) -> Result<(), E>
    ensures value { result ≡ (if passes then Ok tt else Err otherwise) }
    ensures told { MatchResult result (λ _. passes ≡ true) (λ e. (passes ≡ false) × (e ≡ otherwise)) }
{
    if passes { Ok(()) } else { Err(otherwise) }
}

// An answer as the program prints it and as C is told: kind 0 accepted, 1 failed, 2 refused, 3 written, which is no judgement; the margin,
// the number of the check that failed or of the row that refused, and 0 where there is none.
#[derive(Clone, Copy, PartialEq, Eq, Debug)]
pub struct Code {
    pub kind: u8,
    pub number: u64,
}

impl Code {
    pub const WRITTEN: Code = Code { kind: 3, number: 0 };

    pub fn failed<E: Numbered>(check: E) -> Code
        ensures { result ≡ coded (Judged (Failed (E.number_of check))) }
    {
        Code {
            kind: 1,
            number: check.number() as u64,
        }
    }

    pub fn refused(refusal: Refusal) -> Code
        ensures { result ≡ coded (Refused (row_of refusal)) }
    {
        Code {
            kind: 2,
            number: refusal.number() as u64,
        }
    }
}

impl<E: Numbered> From<Verdict<E>> for Code {
    ghost from_gives = { λ verdict code. code ≡ coded (Judged (verdict_of E.number_of verdict)) };

    fn from(verdict: Verdict<E>) -> Code {
        match verdict {
            Ok(margin) => Code {
                kind: 0,
                number: margin,
            },
            Err(check) => Code::failed(check),
        }
    }
}

impl<E: Numbered> From<Result<Verdict<E>, Refusal>> for Code {
    ghost from_gives = { λ answer code. code ≡ coded (judgement_of E.number_of answer) };

    fn from(answer: Result<Verdict<E>, Refusal>) -> Code {
        match answer {
            Ok(verdict) => verdict.into(),
            Err(refusal) => Code::refused(refusal),
        }
    }
}

impl From<Result<(), Refusal>> for Code {
    ghost from_gives = { λ answer code. code ≡ coded (written_of answer) };

    fn from(answer: Result<(), Refusal>) -> Code {
        match answer {
            Ok(()) => Code::WRITTEN,
            Err(refusal) => Code::refused(refusal),
        }
    }
}

// The ring product's: the element is the caller's.
impl From<Result<Element, Refusal>> for Code {
    ghost from_gives = { λ answer code. code ≡ coded (written_of answer) };

    fn from(answer: Result<Element, Refusal>) -> Code {
        match answer {
            Ok(_) => Code::WRITTEN,
            Err(refusal) => Code::refused(refusal),
        }
    }
}

impl<E: Numbered> From<Result<Result<(), E>, Refusal>> for Code {
    ghost from_gives = { λ answer code. code ≡ coded (next_of E.number_of answer) };

    fn from(answer: Result<Result<(), E>, Refusal>) -> Code {
        match answer {
            Ok(Ok(())) => Code::WRITTEN,
            Ok(Err(check)) => Code::failed(check),
            Err(refusal) => Code::refused(refusal),
        }
    }
}
