// The sizes of the next instance: rows 1 to 6 of SPECIFICATION 7, n' and its row 11.
#![tactic(auto, unfolding(fold::specs::Answers::first_failing, fold::specs::Refusals::all_of))]

ghost use Rattle.std.specs.Prelude.{◌≡◌, ◌<◌, ◌≤◌, leb};
ghost use Rattle.fold.specs.Rows.{row_of, failure};
ghost use Rattle.fold.specs.Answers.{first_failing};
ghost use Rattle.fold.specs.Arguments.{VerifySized};
ghost use Rattle.fold.specs.Sizes.{rest_size};
ghost use Rattle.fold.specs.Known.CutSizes.{CutSizes};
ghost use Rattle.fold.specs.Limits.{most_rank};
ghost use Rattle.limits.specs.Bounds as spec;

use crate::bounds::size_rows;
use crate::groups::length_bounds;
use crate::rows::chunk_counts;
use fold::Sizes;
use fold::answers::{Refusal, require};
use fold::chunks::{next_rank, rest_size};
use fold::limits::MOST_RANK;

// Rows 1 to 6: the sizes, for tz digits of z.
pub fn next_bounds(tz: usize, sizes: Sizes, nu: usize, mu: usize) -> Result<(), Refusal>
    requires { (0 < tz) × (tz ≤ 2) }
    ensures { failure row_of result ≡ first_failing (spec.next_bounds_of tz sizes nu mu) }
{
    size_rows(sizes)?;
    require(chunk_counts(tz, nu, mu), Refusal::Chunks)?;
    require(
        length_bounds(sizes.bound, sizes.target),
        Refusal::LengthBound,
    )
}

// n' for these sizes.
pub fn rank_of(sizes: Sizes, nu: usize, mu: usize) -> usize
    requires verify_sized { VerifySized sizes }
    requires cut_sizes { CutSizes sizes.shape.n nu (rest_size sizes.shape.r sizes.kappa sizes.t1 sizes.t2) mu }
    ensures { result ≡ spec.rank_of sizes nu mu }
{
    let m = rest_size(sizes.shape.r, sizes.kappa, sizes.t1, sizes.t2);
    next_rank(sizes.shape.n, nu, m, mu)
}

// Row 11, for the rank n'.
pub fn rank_fits(rank: usize) -> bool
    ensures { result ≡ leb rank most_rank }
{
    rank <= MOST_RANK
}
