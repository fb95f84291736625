// Whether each call is refused, and by which row: SPECIFICATION 7. Sizes are tested before lengths, which are products of them, and lengths
// before what the lists hold.
#![tactic(auto)]

pub mod draws;
pub mod lengths;
pub mod narrow;
pub mod next;
pub mod part;
pub mod ranges;

ghost use Rattle.std.specs.Prelude.{◌≡◌, ◌<◌, ◌≤◌};
ghost use Rattle.fold.specs.Rows.{row_of, failure};
ghost use Rattle.fold.specs.Arguments.{commit_refusal, project_refusal, aggregate_refusal, garbage_refusal, amortize_refusal_with, verify_refusal, product_refusal};
ghost use Rattle.fold.specs.Arguments.{statement_with, draws_of, transcript_of};

use draws::draw_lengths;
use fold::answers::{Refusal, require};
use fold::{CommitSizes, ConstraintSizes, GarbageSizes, Shape, Sizes};
use lengths::{
    aggregate_lengths, amortize_lengths, commit_lengths, constraint_lengths, garbage_lengths,
    matrix_lengths, message_lengths, opening_fits, project_lengths,
};
use limits::bounds::{
    aggregate_bounds, amortize_bounds, commit_bounds, garbage_bounds, project_bounds, verify_bounds,
};
use limits::rows::degree;
use narrow::narrow_digits;
use ranges::{challenges, constraint_ranges, is_element, message_ranges, projections_in_range};
use residues::range::{are_coefficients, are_projection_entries};
use ring::element::Element;

// Message 1: A, B, C and the witness; t, g and u1 are looked at only for their lengths.
pub fn commit_refusal(
    sizes: CommitSizes,
    a_matrix: &[i32],
    b_matrix: &[i32],
    c_matrix: &[i32],
    witness: &[i32],
    t: &[i32],
    g: &[i32],
    u1: &[i32],
) -> Result<(), Refusal>
    ensures { failure row_of result ≡ commit_refusal sizes a_matrix.now b_matrix.now c_matrix.now witness.now
        t.now g.now u1.now }
{
    commit_bounds(sizes)?;
    let fits = commit_lengths(sizes, a_matrix, b_matrix, c_matrix, witness, t, g, u1);
    require(fits, Refusal::SliceLength)?;
    let ranges = are_coefficients(a_matrix)
        & are_coefficients(b_matrix)
        & are_coefficients(c_matrix)
        & are_coefficients(witness);
    require(ranges, Refusal::Coefficient)
}

// Message 2: projection rows and the witness; p for its length.
pub fn project_refusal(
    shape: Shape,
    w: usize,
    projections: &[i32],
    witness: &[i32],
    p: &[i32],
) -> Result<(), Refusal>
    ensures { failure row_of result ≡ project_refusal shape w projections.now witness.now p.now }
{
    project_bounds(shape, w)?;
    let fits = project_lengths(shape, w, projections, witness, p);
    require(fits, Refusal::SliceLength)?;
    let entries = are_projection_entries(projections);
    let ranges = projections_in_range(projections, entries) & are_coefficients(witness);
    require(ranges, Refusal::Coefficient)?;
    require(entries, Refusal::ProjectionEntry)
}

// Message 3: constant-term constraints, projection rows, ψ, ω and the witness; b'' for its length.
pub fn aggregate_refusal(
    shape: Shape,
    l: usize,
    w: usize,
    constant_terms: &[i32],
    projections: &[i32],
    psi: &[i32],
    omega: &[i32],
    witness: &[i32],
    second_b: &[i32],
) -> Result<(), Refusal>
    ensures { failure row_of result ≡ aggregate_refusal shape l w constant_terms.now projections.now psi.now omega.now
        witness.now second_b.now }
{
    aggregate_bounds(shape, l, w)?;
    let sizes = ConstraintSizes { shape, k: 0, l, w };
    let fits = aggregate_lengths(
        sizes,
        constant_terms,
        projections,
        psi,
        omega,
        witness,
        second_b,
    );
    require(fits, Refusal::SliceLength)?;
    let entries = are_projection_entries(projections);
    let ranges = are_coefficients(constant_terms)
        & projections_in_range(projections, entries)
        & are_coefficients(psi)
        & are_coefficients(omega)
        & are_coefficients(witness);
    require(ranges, Refusal::Coefficient)?;
    require(entries, Refusal::ProjectionEntry)
}

// Message 4: both kinds of constraints, projection rows, ψ, ω, α, δ, D and the witness; h and u2 for their lengths.
pub fn garbage_refusal(
    sizes: GarbageSizes,
    whole: &[i32],
    constant_terms: &[i32],
    projections: &[i32],
    psi: &[i32],
    omega: &[i32],
    alpha: &[i32],
    delta: &[i32],
    d_matrix: &[i32],
    witness: &[i32],
    h: &[i32],
    u2: &[i32],
) -> Result<(), Refusal>
    ensures { failure row_of result ≡ garbage_refusal sizes whole.now constant_terms.now projections.now psi.now
        omega.now alpha.now delta.now d_matrix.now
        witness.now h.now u2.now }
{
    garbage_bounds(sizes)?;
    let shape = sizes.shape;
    let constraint_sizes = ConstraintSizes {
        shape,
        k: sizes.k,
        l: sizes.l,
        w: sizes.w,
    };
    let fits = constraint_lengths(
        constraint_sizes,
        whole,
        constant_terms,
        projections,
        psi,
        omega,
        alpha,
        delta,
    ) & garbage_lengths(sizes, d_matrix, witness, h, u2);
    require(fits, Refusal::SliceLength)?;
    let entries = are_projection_entries(projections);
    let others = are_coefficients(d_matrix) & are_coefficients(witness);
    let ranges = constraint_ranges(
        whole,
        constant_terms,
        projections,
        entries,
        psi,
        omega,
        alpha,
        delta,
    ) & others;
    require(ranges, Refusal::Coefficient)?;
    require(entries, Refusal::ProjectionEntry)
}

// Message 5: challenges and the witness; the tz digits of z for their length.
pub fn amortize_refusal(
    tz: usize,
    shape: Shape,
    b: usize,
    c: &[i32],
    witness: &[i32],
    z: &[i32],
) -> Result<(), Refusal>
    requires { tz ≤ 2 }
    ensures { failure row_of result ≡ amortize_refusal_with tz shape b c.now witness.now z.now }
{
    amortize_bounds(shape, b)?;
    let fits = amortize_lengths(tz, shape, b, c, witness, z);
    require(fits, Refusal::SliceLength)?;
    let ranges = are_coefficients(c) & are_coefficients(witness);
    require(ranges, Refusal::Coefficient)?;
    require(challenges(shape.d, shape.r, c), Refusal::Challenge)
}

// The verifier: the statement, the draws, the messages and the opening, whose z has tz digits.
pub fn verify_refusal(
    tz: usize,
    sizes: Sizes,
    a_matrix: &[i32],
    b_matrix: &[i32],
    c_matrix: &[i32],
    d_matrix: &[i32],
    whole: &[i32],
    constant_terms: &[i32],
    u1: &[i32],
    projections: &[i32],
    p: &[i32],
    psi: &[i32],
    omega: &[i32],
    second_b: &[i32],
    alpha: &[i32],
    delta: &[i32],
    u2: &[i32],
    c: &[i32],
    opening: &[i32],
) -> Result<(), Refusal>
    requires { (0 < tz) × (tz ≤ 2) }
    ensures { failure row_of result ≡ verify_refusal (statement_with tz sizes a_matrix.now b_matrix.now c_matrix.now
        d_matrix.now whole.now constant_terms.now) (draws_of projections.now
        psi.now omega.now alpha.now delta.now c.now)
        (transcript_of u1.now p.now second_b.now u2.now) opening.now }
{
    verify_bounds(sizes)?;
    let opened = opening_fits(
        tz,
        sizes.shape.d,
        sizes.shape.n,
        sizes.shape.r,
        sizes.kappa,
        sizes.t1,
        sizes.t2,
        opening,
    );
    let fits = opened
        & message_lengths(sizes, u1, p, second_b, u2)
        & matrix_lengths(sizes, a_matrix, b_matrix, c_matrix, d_matrix)
        & draw_lengths(
            sizes,
            whole,
            constant_terms,
            projections,
            psi,
            omega,
            alpha,
            delta,
            c,
        );
    require(fits, Refusal::SliceLength)?;
    let entries = are_projection_entries(projections);
    let ranges = are_coefficients(opening)
        & message_ranges(u1, p, second_b, u2, a_matrix, b_matrix, c_matrix, d_matrix)
        & constraint_ranges(
            whole,
            constant_terms,
            projections,
            entries,
            psi,
            omega,
            alpha,
            delta,
        )
        & are_coefficients(c);
    require(ranges, Refusal::Coefficient)?;
    require(entries, Refusal::ProjectionEntry)?;
    let rule = challenges(sizes.shape.d, sizes.shape.r, c);
    require(rule, Refusal::Challenge)?;
    let narrow = narrow_digits(tz, sizes, opening);
    require(narrow, Refusal::LowDigit)
}

// The ring product: the degree and two elements by value.
pub fn product_refusal(d: usize, x: Element, y: Element) -> Result<(), Refusal>
    ensures { failure row_of result ≡ product_refusal d x.coefficients y.coefficients }
{
    require(degree(d), Refusal::Degree)?;
    let a = x.coefficients;
    let b = y.coefficients;
    require(is_element(d, &a) & is_element(d, &b), Refusal::Coefficient)
}
