// The verifier: SPECIFICATION 6. It refuses a call, or judges it by checks 1 to 9.
#![tactic(auto)]

ghost use Rattle.std.specs.Prelude.{◌≡◌};
ghost use Rattle.fold.specs.Rows.{check_number};
ghost use Rattle.fold.specs.Answers.{judgement_of};
ghost use Rattle.fold.specs.Arguments.{statement_of, draws_of, transcript_of};
ghost use Rattle.fold.specs.Verification.{verification};

use fold::StatementSizes;
use fold::answers::{Answer, Verdict};
use refusals::verify_refusal;

pub mod judgement;

// The answer to a statement, the draws, the messages and an opening.
pub fn verify(
    sizes: StatementSizes,
    a_matrix: &[i32],
    b_matrix: &[i32],
    c_matrix: &[i32],
    d_matrix: &[i32],
    whole: &[i32],
    constant_terms: &[i32],
    u1: &[i32],
    projections: &[i32],
    p: &[i32],
    psi: &[i32],
    omega: &[i32],
    second_b: &[i32],
    alpha: &[i32],
    delta: &[i32],
    u2: &[i32],
    c: &[i32],
    opening: &[i32],
) -> Answer<Verdict>
    ensures { judgement_of check_number result ≡ verification (statement_of sizes a_matrix.now b_matrix.now c_matrix.now
        d_matrix.now whole.now constant_terms.now)
        (draws_of projections.now psi.now omega.now alpha.now delta.now
        c.now) (transcript_of u1.now p.now second_b.now u2.now)
        opening.now }
{
    let z = sizes.z;
    let tz = z.count();
    let given = sizes.based();
    verify_refusal(
        tz,
        given,
        a_matrix,
        b_matrix,
        c_matrix,
        d_matrix,
        whole,
        constant_terms,
        u1,
        projections,
        p,
        psi,
        omega,
        second_b,
        alpha,
        delta,
        u2,
        c,
        opening,
    )?;
    Ok(judgement::judge(
        tz,
        given,
        a_matrix,
        b_matrix,
        c_matrix,
        d_matrix,
        whole,
        constant_terms,
        u1,
        projections,
        p,
        psi,
        omega,
        second_b,
        alpha,
        delta,
        u2,
        c,
        opening,
    ))
}
