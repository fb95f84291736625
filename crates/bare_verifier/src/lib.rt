// The verifier of the bare level: SPECIFICATION 14.7. It refuses a call, or judges it by checks 1 to 7.
#![tactic(auto)]

ghost use Rattle.std.specs.Prelude.{◌≡◌};
ghost use Rattle.fold.specs.Answers.{judgement_of};
ghost use Rattle.fold.specs.Arguments.{draws_of};
ghost use Rattle.bare.specs.Checks.{bare_check_number};
ghost use Rattle.bare.specs.Arguments.{bare_statement_of, bare_transcript_of, bare_verification};

use bare::{BareCheck, BareSizes};
use bare_refusals::bare_verify_refusal;
use fold::answers::{Answer, Verdict};

pub mod aggregate;
pub mod folded;
pub mod judgement;
pub mod turns;

// The answer to a statement, the draws, p, b'' and a bare opening.
pub fn bare_verify(
    sizes: BareSizes,
    a_matrix: &[i32],
    whole: &[i32],
    constant_terms: &[i32],
    projections: &[i32],
    p: &[i32],
    psi: &[i32],
    omega: &[i32],
    second_b: &[i32],
    alpha: &[i32],
    delta: &[i32],
    c: &[i32],
    opening: &[i32],
) -> Answer<Verdict<BareCheck>>
    ensures { judgement_of bare_check_number result ≡ bare_verification (bare_statement_of sizes a_matrix.now whole.now constant_terms.now)
        (draws_of projections.now psi.now omega.now alpha.now delta.now c.now)
        (bare_transcript_of p.now second_b.now) opening.now }
{
    bare_verify_refusal(
        sizes,
        a_matrix,
        whole,
        constant_terms,
        projections,
        p,
        psi,
        omega,
        second_b,
        alpha,
        delta,
        c,
        opening,
    )?;
    Ok(judgement::judge(
        sizes,
        a_matrix,
        whole,
        constant_terms,
        projections,
        p,
        psi,
        omega,
        second_b,
        alpha,
        delta,
        c,
        opening,
    ))
}
