// The next instance: SPECIFICATION 8. The call has no `requires`: what it cannot take it refuses by number.
#![tactic(auto)]

ghost use Rattle.fold.specs.Rows.{check_number};
ghost use Rattle.fold.specs.Answers.{next_of};
ghost use Rattle.fold.specs.Arguments.{statement_of, draws_of, transcript_of};
ghost use Rattle.next_instance.specs.Calls.{NextCalled};

use fold::StatementSizes;
use fold::answers::{Answer, Check};
use refusals::next::next_refusal;
use verifier::judgement::message_checks;
use writer::write_instance;

pub mod part;
pub mod writer;

// Writes the constraints of the next instance to `out`, unless the call is refused or check 1 or 2 fails.
pub fn next_instance(
    sizes: StatementSizes,
    nu: usize,
    mu: usize,
    a_matrix: &[i32],
    b_matrix: &[i32],
    c_matrix: &[i32],
    d_matrix: &[i32],
    whole: &[i32],
    constant_terms: &[i32],
    u1: &[i32],
    projections: &[i32],
    p: &[i32],
    psi: &[i32],
    omega: &[i32],
    second_b: &[i32],
    alpha: &[i32],
    delta: &[i32],
    u2: &[i32],
    c: &[i32],
    out: &mut [i32],
) -> Answer<Result<(), Check>>
    ensures { NextCalled (statement_of sizes a_matrix.now b_matrix.now c_matrix.now
        d_matrix.now whole.now constant_terms.now) (draws_of projections.now
        psi.now omega.now alpha.now delta.now c.now)
        (transcript_of u1.now p.now second_b.now u2.now) nu mu out.old
        (next_of check_number result) out.new }
{
    let tz = sizes.z.count();
    let given = sizes.based();
    next_refusal(
        tz,
        given,
        nu,
        mu,
        a_matrix,
        b_matrix,
        c_matrix,
        d_matrix,
        whole,
        constant_terms,
        u1,
        projections,
        p,
        psi,
        omega,
        second_b,
        alpha,
        delta,
        u2,
        c,
        out,
    )?;
    match message_checks(given, constant_terms, p, psi, omega, second_b) {
        Err(check) => return Ok(Err(check)),
        Ok(()) => {}
    }
    write_instance(
        tz,
        given,
        nu,
        mu,
        a_matrix,
        b_matrix,
        c_matrix,
        d_matrix,
        whole,
        constant_terms,
        u1,
        projections,
        p,
        psi,
        omega,
        second_b,
        alpha,
        delta,
        u2,
        c,
        out,
    );
    Ok(Ok(()))
}
