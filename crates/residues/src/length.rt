// Squared lengths, compared exactly with a bound: what is left of the bound shrinks, so no sum is ever formed.
ghost use Rattle.std.specs.Prelude.{◌≡◌, ◌*◌, nat_abs};
ghost use Rattle.integers.specs.Sums.{norm_sq};
ghost use Rattle.residues.specs.Length.{remaining, lessened};

use crate::range::magnitude;

fn square(x: i32) -> u64
    ensures { result ≡ nat_abs x * nat_abs x }
{
    let m = magnitude(x);
    m * m
}

// The squared length of xs against a bound: what it leaves of the bound, where it is within.
pub fn compare(bound: u64, xs: &[i32]) -> Option<u64>
    ensures { result ≡ remaining bound (norm_sq xs.now) }
{
    let mut rest = bound;
    for x in xs {
        let s = square(*x);
        if rest < s {
            return None;
        }
        rest -= s;
    }
    Some(rest)
}

// What is left of a margin after one more slice: compare, then lessen for each further slice, compares the squared
// length of all of them together.
#[tactic(auto, unfolding(crate::specs::Length::lessened))]
pub fn lessen(margin: Option<u64>, xs: &[i32]) -> Option<u64>
    ensures { result ≡ lessened margin (norm_sq xs.now) }
{
    compare(margin?, xs)
}
