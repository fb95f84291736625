// Whether each call of the bare level is refused, and by which row: SPECIFICATION 7.
#![tactic(auto)]

pub mod bounds;
pub mod lengths;
pub mod unmixed;

ghost use Rattle.std.specs.Prelude.{◌≡◌};
ghost use Rattle.fold.specs.Rows.{row_of, failure};
ghost use Rattle.fold.specs.Arguments.{draws_of};
ghost use Rattle.bare.specs.Arguments.{bare_statement_of, bare_transcript_of};
ghost use Rattle.bare.specs.Arguments.{bare_commit_refusal, bare_phi_refusal, bare_turn_refusal, bare_verify_refusal};

use bare::BareSizes;
use bounds::{commit_bounds, phi_bounds, turn_bounds, verify_bounds};
use fold::answers::{Refusal, require};
use fold::{ConstraintSizes, Shape};
use lengths::{commit_lengths, given_lengths, opened_lengths, turn_lengths};
use refusals::lengths::{constraint_lengths, matrix_fits};
use refusals::ranges::{challenges, constraint_ranges};
use residues::range::{are_coefficients, are_projection_entries};
use unmixed::all_unmixed;

// t: A and the witness; t is looked at only for its length.
pub fn bare_commit_refusal(
    shape: Shape,
    kappa: usize,
    a_matrix: &[i32],
    witness: &[i32],
    t: &[i32],
) -> Result<(), Refusal>
    ensures { failure row_of result ≡ bare_commit_refusal shape kappa a_matrix.now witness.now t.now }
{
    commit_bounds(shape, kappa)?;
    let fits = commit_lengths(shape, kappa, a_matrix, witness, t);
    require(fits, Refusal::SliceLength)?;
    let ranges = are_coefficients(a_matrix) & are_coefficients(witness);
    require(ranges, Refusal::Coefficient)
}

// φ: both kinds of constraints, projection rows, ψ, ω, α and δ; φ for its length.
pub fn bare_phi_refusal(
    sizes: ConstraintSizes,
    whole: &[i32],
    constant_terms: &[i32],
    projections: &[i32],
    psi: &[i32],
    omega: &[i32],
    alpha: &[i32],
    delta: &[i32],
    phi: &[i32],
) -> Result<(), Refusal>
    ensures { failure row_of result ≡ bare_phi_refusal sizes whole.now constant_terms.now projections.now psi.now
        omega.now alpha.now delta.now phi.now }
{
    phi_bounds(sizes)?;
    let fits = matrix_fits(phi, sizes.shape.r, sizes.shape.n, sizes.shape.d)
        & constraint_lengths(
            sizes,
            whole,
            constant_terms,
            projections,
            psi,
            omega,
            alpha,
            delta,
        );
    require(fits, Refusal::SliceLength)?;
    let entries = are_projection_entries(projections);
    let ranges = constraint_ranges(
        whole,
        constant_terms,
        projections,
        entries,
        psi,
        omega,
        alpha,
        delta,
    );
    require(ranges, Refusal::Coefficient)?;
    require(entries, Refusal::ProjectionEntry)?;
    let products = all_unmixed(sizes, whole, constant_terms);
    require(products, Refusal::MixedProduct)
}

// A turn, from 1 on: φ, the challenges before it and the witness; its four elements for their length.
pub fn bare_turn_refusal(
    shape: Shape,
    turn: usize,
    phi: &[i32],
    c: &[i32],
    witness: &[i32],
    out: &[i32],
) -> Result<(), Refusal>
    ensures { failure row_of result ≡ bare_turn_refusal shape turn phi.now c.now witness.now out.now }
{
    turn_bounds(shape, turn)?;
    let fits = turn_lengths(shape, turn, phi, c, witness, out);
    require(fits, Refusal::SliceLength)?;
    let ranges = are_coefficients(phi) & are_coefficients(c) & are_coefficients(witness);
    require(ranges, Refusal::Coefficient)?;
    let rule = challenges(shape.d, turn - 1, c);
    require(rule, Refusal::Challenge)
}

// The verifier: the statement, the draws, p, b'' and the bare opening.
pub fn bare_verify_refusal(
    sizes: BareSizes,
    a_matrix: &[i32],
    whole: &[i32],
    constant_terms: &[i32],
    projections: &[i32],
    p: &[i32],
    psi: &[i32],
    omega: &[i32],
    second_b: &[i32],
    alpha: &[i32],
    delta: &[i32],
    c: &[i32],
    opening: &[i32],
) -> Result<(), Refusal>
    ensures { failure row_of result ≡ bare_verify_refusal (bare_statement_of sizes a_matrix.now whole.now constant_terms.now)
        (draws_of projections.now psi.now omega.now alpha.now delta.now c.now)
        (bare_transcript_of p.now second_b.now) opening.now }
{
    verify_bounds(sizes)?;
    let shape = sizes.shape;
    let constraint_sizes = ConstraintSizes {
        shape,
        k: sizes.k,
        l: sizes.l,
        w: sizes.w,
    };
    let fits = opened_lengths(sizes, opening, p, second_b)
        & given_lengths(sizes, a_matrix, c)
        & constraint_lengths(
            constraint_sizes,
            whole,
            constant_terms,
            projections,
            psi,
            omega,
            alpha,
            delta,
        );
    require(fits, Refusal::SliceLength)?;
    let entries = are_projection_entries(projections);
    let ranges = are_coefficients(opening)
        & are_coefficients(p)
        & are_coefficients(second_b)
        & are_coefficients(a_matrix)
        & are_coefficients(c)
        & constraint_ranges(
            whole,
            constant_terms,
            projections,
            entries,
            psi,
            omega,
            alpha,
            delta,
        );
    require(ranges, Refusal::Coefficient)?;
    require(entries, Refusal::ProjectionEntry)?;
    let rule = challenges(shape.d, shape.r, c);
    require(rule, Refusal::Challenge)?;
    let products = all_unmixed(constraint_sizes, whole, constant_terms);
    require(products, Refusal::MixedProduct)
}
