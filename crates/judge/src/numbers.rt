// The numbers of a sheet, cut into the lists that the verifier takes, in four stages: the check of a function grows with the parts that it
// cuts, and seventeen in one are too many. Each stage is handed the lists cut so far and the numbers that are left.
ghost use Rattle.std.specs.Prelude.{◌≡◌};
ghost use Rattle.fold.specs.Rows.{check_number};
ghost use Rattle.fold.specs.Answers.{judgement_of};
ghost use Rattle.fold.specs.Arguments.{VerifySized};
ghost use Rattle.judge.specs.Judging.{judged_numbers};
ghost use Rattle.judge.specs.Stages.{last_stage, number_stage, constraint_stage};

use crate::lengths;
use crate::lists::{front, rest};
use fold::Sizes;
use fold::answers::{Answer, Verdict};
use limits::sizes::list_length;

// α, δ, u2, c and the opening.
fn judge_last(
    s: Sizes,
    a_matrix: &[i32],
    b_matrix: &[i32],
    c_matrix: &[i32],
    d_matrix: &[i32],
    whole: &[i32],
    constant_terms: &[i32],
    u1: &[i32],
    projections: &[i32],
    p: &[i32],
    psi: &[i32],
    omega: &[i32],
    second_b: &[i32],
    xs: &[i32],
) -> Answer<Verdict>
    requires { VerifySized s }
    ensures { judgement_of check_number result ≡ last_stage s a_matrix.now b_matrix.now c_matrix.now d_matrix.now
        whole.now constant_terms.now u1.now projections.now p.now psi.now
        omega.now second_b.now xs.now }
{
    let alpha_length = list_length(s.k, s.shape.d);
    let delta_length = list_length(5, s.shape.d);
    let u2_length = list_length(s.kappa2, s.shape.d);
    let c_length = list_length(s.shape.r, s.shape.d);
    let opening_length = lengths::opening_length(s);
    let after_alpha = rest(xs, alpha_length);
    let after_delta = rest(after_alpha, delta_length);
    let after_u2 = rest(after_delta, u2_length);
    let after_c = rest(after_u2, c_length);
    let sizes = s.in_two_digits();
    verifier::verify(
        sizes,
        a_matrix,
        b_matrix,
        c_matrix,
        d_matrix,
        whole,
        constant_terms,
        u1,
        projections,
        p,
        psi,
        omega,
        second_b,
        front(xs, alpha_length),
        front(after_alpha, delta_length),
        front(after_delta, u2_length),
        front(after_u2, c_length),
        front(after_c, opening_length),
    )
}

// p, ψ, ω and b''.
fn judge_numbers(
    s: Sizes,
    a_matrix: &[i32],
    b_matrix: &[i32],
    c_matrix: &[i32],
    d_matrix: &[i32],
    whole: &[i32],
    constant_terms: &[i32],
    u1: &[i32],
    projections: &[i32],
    xs: &[i32],
) -> Answer<Verdict>
    requires { VerifySized s }
    ensures { judgement_of check_number result ≡ number_stage s a_matrix.now b_matrix.now c_matrix.now d_matrix.now
        whole.now constant_terms.now u1.now projections.now xs.now }
{
    let p_length = s.w;
    let psi_length = 5 * s.l;
    let omega_length = 5 * s.w;
    let second_b_length = 5 * s.shape.d;
    let after_p = rest(xs, p_length);
    let after_psi = rest(after_p, psi_length);
    let after_omega = rest(after_psi, omega_length);
    let after_second_b = rest(after_omega, second_b_length);
    judge_last(
        s,
        a_matrix,
        b_matrix,
        c_matrix,
        d_matrix,
        whole,
        constant_terms,
        u1,
        projections,
        front(xs, p_length),
        front(after_p, psi_length),
        front(after_psi, omega_length),
        front(after_omega, second_b_length),
        after_second_b,
    )
}

// The constraints, u1 and the projection rows.
fn judge_constraints(
    s: Sizes,
    a_matrix: &[i32],
    b_matrix: &[i32],
    c_matrix: &[i32],
    d_matrix: &[i32],
    xs: &[i32],
) -> Answer<Verdict>
    requires { VerifySized s }
    ensures { judgement_of check_number result ≡ constraint_stage s a_matrix.now b_matrix.now c_matrix.now d_matrix.now
        xs.now }
{
    let whole_length = lengths::whole_length(s);
    let constant_terms_length = lengths::constant_terms_length(s);
    let u1_length = list_length(s.kappa1, s.shape.d);
    let projections_length = lengths::projections_length(s);
    let after_whole = rest(xs, whole_length);
    let after_constant_terms = rest(after_whole, constant_terms_length);
    let after_u1 = rest(after_constant_terms, u1_length);
    let after_projections = rest(after_u1, projections_length);
    judge_numbers(
        s,
        a_matrix,
        b_matrix,
        c_matrix,
        d_matrix,
        front(xs, whole_length),
        front(after_whole, constant_terms_length),
        front(after_constant_terms, u1_length),
        front(after_u1, projections_length),
        after_projections,
    )
}

// A, B, C and D. The answer to all numbers of a sheet.
pub fn judge_sheet_numbers(s: Sizes, xs: &[i32]) -> Answer<Verdict>
    requires { VerifySized s }
    ensures { judgement_of check_number result ≡ judged_numbers s xs.now }
{
    let a_matrix_length = lengths::a_matrix_length(s);
    let b_matrix_length = lengths::b_matrix_length(s);
    let c_matrix_length = lengths::c_matrix_length(s);
    let d_matrix_length = lengths::d_matrix_length(s);
    let after_a_matrix = rest(xs, a_matrix_length);
    let after_b_matrix = rest(after_a_matrix, b_matrix_length);
    let after_c_matrix = rest(after_b_matrix, c_matrix_length);
    let after_d_matrix = rest(after_c_matrix, d_matrix_length);
    judge_constraints(
        s,
        front(xs, a_matrix_length),
        front(after_a_matrix, b_matrix_length),
        front(after_b_matrix, c_matrix_length),
        front(after_c_matrix, d_matrix_length),
        after_d_matrix,
    )
}
