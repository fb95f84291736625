// Whether the next instance is refused, and by which row: SPECIFICATION 7.
ghost use Rattle.std.specs.Prelude.{◌≡◌, ◌+◌, ◌*◌, ◌<◌, ◌≤◌};
ghost use Rattle.fold.specs.Rows.{row_of, failure};
ghost use Rattle.fold.specs.Answers.{first_failing};
ghost use Rattle.fold.specs.Refusals.{next_tests};
ghost use Rattle.fold.specs.Refusals as table;
ghost use Rattle.fold.specs.Arguments.{VerifySized, statement_with, draws_of, transcript_of};
ghost use Rattle.fold.specs.Known.CallLimits.{ChunkLimits};
ghost use Rattle.fold.specs.Limits.{most_chunks, most_commitment_rank};
ghost use Rattle.limits.specs.Bounds.{rank_of};
ghost use Rattle.refusals.specs.Lengths as spec;

use crate::draws::draw_lengths;
use crate::lengths::{matrix_lengths, message_lengths};
use crate::ranges::{challenges, constraint_ranges, message_ranges};
use fold::Sizes;
use fold::answers::{Refusal, require};
use limits::next::{next_bounds, rank_fits, rank_of};
use limits::rows::sized;
use residues::range::{are_coefficients, are_projection_entries};

// Row 7: numbers of `count` whole constraints on `parts` parts of `rank` elements. The rank may be above 256 here, which row 11 tells.
pub fn next_fits(out: &[i32], d: usize, rank: usize, parts: usize, count: usize) -> bool
    requires { (d ≤ 64) × (rank ≤ 8192) × (parts ≤ most_chunks) × (count ≤ 3 * most_commitment_rank + 3) }
    ensures { result ≡ table.sized out.now (table.whole_length d rank parts count) }
{
    let function = fold::counts::pair_count(parts) + parts * rank;
    let length = count * ((function + 1) * d);
    sized(out, length)
}

// Row 7: the list written.
pub fn out_fits(tz: usize, sizes: Sizes, nu: usize, mu: usize, rank: usize, out: &[i32]) -> bool
    requires tz_nonzero { 0 < tz }
    requires verify_sized { VerifySized sizes }
    requires chunk_limits { ChunkLimits tz nu mu }
    requires rank_value { rank ≡ rank_of sizes nu mu }
    ensures { result ≡ table.sized out.now (spec.out_length_of tz sizes nu mu) }
{
    let parts = tz * nu + mu;
    let count = sizes.kappa + sizes.kappa1 + sizes.kappa2 + 3;
    next_fits(out, sizes.shape.d, rank, parts, count)
}

// The next instance: the statement, whose z has tz digits, the draws, the messages; the list written for its length.
pub fn next_refusal(
    tz: usize,
    sizes: Sizes,
    nu: usize,
    mu: usize,
    a_matrix: &[i32],
    b_matrix: &[i32],
    c_matrix: &[i32],
    d_matrix: &[i32],
    whole: &[i32],
    constant_terms: &[i32],
    u1: &[i32],
    projections: &[i32],
    p: &[i32],
    psi: &[i32],
    omega: &[i32],
    second_b: &[i32],
    alpha: &[i32],
    delta: &[i32],
    u2: &[i32],
    c: &[i32],
    out: &[i32],
) -> Result<(), Refusal>
    requires { (0 < tz) × (tz ≤ 2) }
    ensures { failure row_of result ≡ first_failing (next_tests (statement_with tz sizes a_matrix.now b_matrix.now c_matrix.now
        d_matrix.now whole.now constant_terms.now) (draws_of projections.now
        psi.now omega.now alpha.now delta.now c.now)
        (transcript_of u1.now p.now second_b.now u2.now) nu mu out.now) }
{
    next_bounds(tz, sizes, nu, mu)?;
    let rank = rank_of(sizes, nu, mu);
    let fits = out_fits(tz, sizes, nu, mu, rank, out)
        & message_lengths(sizes, u1, p, second_b, u2)
        & matrix_lengths(sizes, a_matrix, b_matrix, c_matrix, d_matrix)
        & draw_lengths(
            sizes,
            whole,
            constant_terms,
            projections,
            psi,
            omega,
            alpha,
            delta,
            c,
        );
    require(fits, Refusal::SliceLength)?;
    let entries = are_projection_entries(projections);
    let ranges = message_ranges(u1, p, second_b, u2, a_matrix, b_matrix, c_matrix, d_matrix)
        & constraint_ranges(
            whole,
            constant_terms,
            projections,
            entries,
            psi,
            omega,
            alpha,
            delta,
        )
        & are_coefficients(c);
    require(ranges, Refusal::Coefficient)?;
    require(entries, Refusal::ProjectionEntry)?;
    let rule = challenges(sizes.shape.d, sizes.shape.r, c);
    require(rule, Refusal::Challenge)?;
    require(rank_fits(rank), Refusal::NextRank)
}
