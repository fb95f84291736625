// The sizes of the question for a part of the next witness: rows 1 to 5 of SPECIFICATION 7.
#![tactic(auto, unfolding(fold::specs::Answers::first_failing, fold::specs::Refusals::all_of))]

ghost use Rattle.std.specs.Prelude.{◌≡◌, ◌<◌, ◌≤◌, pos};
ghost use Rattle.fold.specs.Rows.{row_of, failure};
ghost use Rattle.fold.specs.Answers.{first_failing};
ghost use Rattle.fold.specs.Sizes.{next_parts};
ghost use Rattle.fold.specs.Refusals as table;
ghost use Rattle.limits.specs.Bounds as spec;

use crate::groups::shape;
use crate::rows::{chunk_counts, commitment_rank, degree, digit_count};
use fold::PartSizes;
use fold::answers::{Refusal, require};

// Whether a part number is 1 to r' = tz·ν+μ, for any ν and μ: ν is taken off digit by digit, so nothing wraps.
pub fn part_number(tz: usize, nu: usize, mu: usize, part: usize) -> bool
    ensures { result ≡ table.between 1 (next_parts tz nu mu) (pos part) }
{
    if part == 0 {
        return false;
    }
    let mut left = part;
    for _e in 0..tz {
        if left <= nu {
            return true;
        }
        left -= nu;
    }
    left <= mu
}

// Rows 1 to 5, for tz digits of z.
pub fn part_bounds(tz: usize, sizes: PartSizes, part: usize) -> Result<(), Refusal>
    requires { (0 < tz) × (tz ≤ 2) }
    ensures { failure row_of result ≡ first_failing (spec.part_bounds_of tz sizes part) }
{
    require(degree(sizes.shape.d), Refusal::Degree)?;
    let part_inside = part_number(tz, sizes.nu, sizes.mu, part);
    require(
        shape(sizes.shape.n, sizes.shape.r) & part_inside,
        Refusal::Size,
    )?;
    require(commitment_rank(sizes.kappa), Refusal::CommitmentRank)?;
    require(
        digit_count(sizes.t1) & digit_count(sizes.t2),
        Refusal::Digits,
    )?;
    require(chunk_counts(tz, sizes.nu, sizes.mu), Refusal::Chunks)
}
