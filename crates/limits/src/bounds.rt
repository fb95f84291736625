// SPECIFICATION 7.1 to 7.6 for each call: its sizes.
#![tactic(auto, unfolding(fold::specs::Answers::first_failing, fold::specs::Refusals::all_of))]

ghost use Rattle.std.specs.Prelude.{◌≡◌, ◌++◌, [], ◌∷◌, pos};
ghost use Rattle.fold.specs.Rows.{row_of, failure};
ghost use Rattle.fold.specs.Answers.{first_failing};
ghost use Rattle.fold.specs.Refusals.{all_of, ranks, commitment_rank, project_bounds, aggregate_bounds, amortize_bounds};
ghost use Rattle.limits.specs.Bounds as spec;

use crate::groups;
use crate::rows::{base, commitment_rank, constraint_count, degree, digit_count, projection_count};
use fold::answers::{Refusal, require};
use fold::{CommitSizes, GarbageSizes, Shape, Sizes};

pub fn commit_bounds(sizes: CommitSizes) -> Result<(), Refusal>
    ensures { failure row_of result ≡ first_failing (spec.commit_bounds_of sizes) }
{
    require(degree(sizes.shape.d), Refusal::Degree)?;
    require(groups::shape(sizes.shape.n, sizes.shape.r), Refusal::Size)?;
    require(
        groups::ranks(sizes.kappa, sizes.kappa1),
        Refusal::CommitmentRank,
    )?;
    require(
        groups::digits(sizes.b1, sizes.b2, sizes.t1, sizes.t2),
        Refusal::Digits,
    )
}

pub fn project_bounds(shape: Shape, w: usize) -> Result<(), Refusal>
    ensures { failure row_of result ≡ first_failing (project_bounds shape.d shape.n shape.r w) }
{
    require(degree(shape.d), Refusal::Degree)?;
    require(
        groups::shape(shape.n, shape.r) & projection_count(w),
        Refusal::Size,
    )
}

pub fn aggregate_bounds(shape: Shape, l: usize, w: usize) -> Result<(), Refusal>
    ensures { failure row_of result ≡ first_failing (aggregate_bounds shape.d shape.n shape.r l w) }
{
    require(degree(shape.d), Refusal::Degree)?;
    let others = constraint_count(l) & projection_count(w);
    require(groups::shape(shape.n, shape.r) & others, Refusal::Size)
}

pub fn garbage_bounds(sizes: GarbageSizes) -> Result<(), Refusal>
    ensures { failure row_of result ≡ first_failing (spec.garbage_bounds_of sizes) }
{
    require(degree(sizes.shape.d), Refusal::Degree)?;
    let counts = groups::counts(sizes.k, sizes.l, sizes.w);
    require(
        groups::shape(sizes.shape.n, sizes.shape.r) & counts,
        Refusal::Size,
    )?;
    require(commitment_rank(sizes.kappa2), Refusal::CommitmentRank)?;
    require(base(sizes.b1) & digit_count(sizes.t1), Refusal::Digits)
}

pub fn amortize_bounds(shape: Shape, b: usize) -> Result<(), Refusal>
    ensures { failure row_of result ≡ first_failing (amortize_bounds shape.d shape.n shape.r b) }
{
    require(degree(shape.d), Refusal::Degree)?;
    require(groups::shape(shape.n, shape.r), Refusal::Size)?;
    require(base(b), Refusal::Digits)
}

// Row 3 of a statement: κ, κ1 and κ2.
fn three_ranks(sizes: Sizes) -> bool
    ensures { result ≡ all_of (ranks (pos sizes.kappa) (pos sizes.kappa1) ++ (commitment_rank (pos sizes.kappa2) ∷ [])) }
{
    groups::ranks(sizes.kappa, sizes.kappa1) & commitment_rank(sizes.kappa2)
}

// Rows 1 to 4 of a statement.
pub fn size_rows(sizes: Sizes) -> Result<(), Refusal>
    ensures { failure row_of result ≡ first_failing (spec.size_rows_of sizes) }
{
    require(degree(sizes.shape.d), Refusal::Degree)?;
    let counts = groups::counts(sizes.k, sizes.l, sizes.w);
    require(
        groups::shape(sizes.shape.n, sizes.shape.r) & counts,
        Refusal::Size,
    )?;
    require(three_ranks(sizes), Refusal::CommitmentRank)?;
    let digits = groups::digits(sizes.b1, sizes.b2, sizes.t1, sizes.t2);
    require(base(sizes.b) & digits, Refusal::Digits)
}

pub fn verify_bounds(sizes: Sizes) -> Result<(), Refusal>
    ensures { failure row_of result ≡ first_failing (spec.verify_bounds_of sizes) }
{
    size_rows(sizes)?;
    require(
        groups::length_bounds(sizes.bound, sizes.target),
        Refusal::LengthBound,
    )
}
