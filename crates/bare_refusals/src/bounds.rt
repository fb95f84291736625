// SPECIFICATION 7.1 to 7.6 for the calls of the bare level: their sizes.
#![tactic(auto, unfolding(fold::specs::Answers::first_failing, fold::specs::Refusals::all_of))]

ghost use Rattle.std.specs.Prelude.{◌≡◌, pos};
ghost use Rattle.fold.specs.Rows.{row_of, failure};
ghost use Rattle.fold.specs.Answers.{first_failing};
ghost use Rattle.fold.specs.Refusals.{between};
ghost use Rattle.bare.specs.Refusals.{bare_commit_bounds, bare_turn_bounds};
ghost use Rattle.bare_refusals.specs.Bounds as spec;

use bare::BareSizes;
use fold::answers::{Refusal, require};
use fold::{ConstraintSizes, Shape};
use limits::groups;
use limits::rows::{commitment_rank, degree};

pub fn commit_bounds(shape: Shape, kappa: usize) -> Result<(), Refusal>
    ensures { failure row_of result ≡ first_failing (bare_commit_bounds shape.d shape.n shape.r kappa) }
{
    require(degree(shape.d), Refusal::Degree)?;
    require(groups::shape(shape.n, shape.r), Refusal::Size)?;
    require(commitment_rank(kappa), Refusal::CommitmentRank)
}

pub fn phi_bounds(sizes: ConstraintSizes) -> Result<(), Refusal>
    ensures { failure row_of result ≡ first_failing (spec.phi_bounds_of sizes) }
{
    require(degree(sizes.shape.d), Refusal::Degree)?;
    let counts = groups::counts(sizes.k, sizes.l, sizes.w);
    require(
        groups::shape(sizes.shape.n, sizes.shape.r) & counts,
        Refusal::Size,
    )
}

// Row 2: a turn is 1 to r.
fn turn_number(r: usize, turn: usize) -> bool
    ensures { result ≡ between 1 r (pos turn) }
{
    (1 <= turn) & (turn <= r)
}

pub fn turn_bounds(shape: Shape, turn: usize) -> Result<(), Refusal>
    ensures { failure row_of result ≡ first_failing (bare_turn_bounds shape.d shape.n shape.r turn) }
{
    require(degree(shape.d), Refusal::Degree)?;
    let inside = turn_number(shape.r, turn);
    require(groups::shape(shape.n, shape.r) & inside, Refusal::Size)
}

pub fn verify_bounds(sizes: BareSizes) -> Result<(), Refusal>
    ensures { failure row_of result ≡ first_failing (spec.verify_bounds_of sizes) }
{
    require(degree(sizes.shape.d), Refusal::Degree)?;
    let counts = groups::counts(sizes.k, sizes.l, sizes.w);
    require(
        groups::shape(sizes.shape.n, sizes.shape.r) & counts,
        Refusal::Size,
    )?;
    require(commitment_rank(sizes.kappa), Refusal::CommitmentRank)?;
    let lengths = groups::length_bounds(sizes.bound, sizes.z_bound);
    require(lengths, Refusal::LengthBound)
}
