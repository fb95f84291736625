// The bare level for C.
ghost use Rattle.std.specs.Prelude.{◌≡◌};
ghost use Rattle.fold.specs.Arguments.{draws_of};
ghost use Rattle.bare.specs.Arguments.{bare_statement_of, bare_transcript_of, bare_verification};
ghost use Rattle.bare.specs.Calls.{BareCommitted, BarePhiFormed, BareTurned};
ghost use Rattle.capi.specs.Codes.{shape_from, constraint_sizes_from, bare_sizes_from, Coded, code_of};

use crate::sizes::{CBareSizes, CConstraintSizes, CShape};
use crate::types;
use crate::types::CAnswer;
use bare::BareSizes;
use fold::answers::Code;
use fold::{ConstraintSizes, Shape};

// t: `lizkarg::bare_commit`.
pub fn lizkarg_bare_commit(
    shape: CShape,
    kappa: usize,
    a_matrix: &[i32],
    witness: &[i32],
    t: &mut [i32],
) -> CAnswer
    ensures { Coded (λ answer. BareCommitted (shape_from shape) kappa a_matrix.now witness.now t.old answer t.new) result }
{
    let given = Shape::from(shape);
    let answer = lizkarg::bare_commit(given, kappa, a_matrix, witness, t);
    types::code(Code::from(answer))
}

// φ: `lizkarg::bare_phi`.
pub fn lizkarg_bare_phi(
    sizes: CConstraintSizes,
    whole: &[i32],
    constant_terms: &[i32],
    projections: &[i32],
    psi: &[i32],
    omega: &[i32],
    alpha: &[i32],
    delta: &[i32],
    phi: &mut [i32],
) -> CAnswer
    ensures { Coded (λ answer. BarePhiFormed (constraint_sizes_from sizes) whole.now constant_terms.now projections.now psi.now
        omega.now alpha.now delta.now phi.old answer phi.new) result }
{
    let given = ConstraintSizes::from(sizes);
    let answer = lizkarg::bare_phi(
        given,
        whole,
        constant_terms,
        projections,
        psi,
        omega,
        alpha,
        delta,
        phi,
    );
    types::code(Code::from(answer))
}

// A turn: `lizkarg::bare_turn`.
pub fn lizkarg_bare_turn(
    shape: CShape,
    turn: usize,
    phi: &[i32],
    c: &[i32],
    witness: &[i32],
    garbage: &mut [i32],
) -> CAnswer
    ensures { Coded (λ answer. BareTurned (shape_from shape) turn phi.now c.now witness.now garbage.old answer
        garbage.new) result }
{
    let given = Shape::from(shape);
    let answer = lizkarg::bare_turn(given, turn, phi, c, witness, garbage);
    types::code(Code::from(answer))
}

// The verifier: `lizkarg::bare_verify`.
pub fn lizkarg_bare_verify(
    sizes: CBareSizes,
    a_matrix: &[i32],
    whole: &[i32],
    constant_terms: &[i32],
    projections: &[i32],
    p: &[i32],
    psi: &[i32],
    omega: &[i32],
    second_b: &[i32],
    alpha: &[i32],
    delta: &[i32],
    c: &[i32],
    opening: &[i32],
) -> CAnswer
    ensures { result ≡ code_of (bare_verification (bare_statement_of (bare_sizes_from sizes) a_matrix.now whole.now constant_terms.now)
        (draws_of projections.now psi.now omega.now alpha.now delta.now c.now)
        (bare_transcript_of p.now second_b.now) opening.now) }
{
    let given = BareSizes::from(sizes);
    let answer = lizkarg::bare_verify(
        given,
        a_matrix,
        whole,
        constant_terms,
        projections,
        p,
        psi,
        omega,
        second_b,
        alpha,
        delta,
        c,
        opening,
    );
    types::code(Code::from(answer))
}
