// The next instance and the parts of its witness under their names for C.
ghost use Rattle.std.specs.Prelude.{◌≡◌};
ghost use Rattle.fold.specs.Arguments.{statement_of, draws_of, transcript_of};
ghost use Rattle.fold.specs.Arguments.{part_refusal_of};
ghost use Rattle.next_instance.specs.Calls.{NextCalled};
ghost use Rattle.next_instance.specs.Parts.{Placed};
ghost use Rattle.capi.specs.Codes.{Coded, sizes_from, part_sizes_from, place_from};

use capi::next::CPart;
use capi::sizes::{CPartSizes, CSizes};
use capi::types::CAnswer;

#[unsafe(no_mangle)]
pub extern "C" fn lizkarg_next_instance(
    sizes: CSizes,
    nu: usize,
    mu: usize,
    a_matrix: &[i32],
    b_matrix: &[i32],
    c_matrix: &[i32],
    d_matrix: &[i32],
    whole: &[i32],
    constant_terms: &[i32],
    u1: &[i32],
    projections: &[i32],
    p: &[i32],
    psi: &[i32],
    omega: &[i32],
    second_b: &[i32],
    alpha: &[i32],
    delta: &[i32],
    u2: &[i32],
    c: &[i32],
    out: &mut [i32],
) -> CAnswer
    ensures { Coded (λ answer. NextCalled (statement_of (sizes_from sizes) a_matrix.now b_matrix.now c_matrix.now
        d_matrix.now whole.now constant_terms.now)
        (draws_of projections.now psi.now omega.now alpha.now delta.now
        c.now) (transcript_of u1.now p.now second_b.now u2.now) nu mu
        out.old answer out.new) result }
{
    capi::next::lizkarg_next_instance(
        sizes,
        nu,
        mu,
        a_matrix,
        b_matrix,
        c_matrix,
        d_matrix,
        whole,
        constant_terms,
        u1,
        projections,
        p,
        psi,
        omega,
        second_b,
        alpha,
        delta,
        u2,
        c,
        out,
    )
}

#[unsafe(no_mangle)]
pub extern "C" fn lizkarg_next_part_refusal(sizes: CPartSizes, part: usize, opening: &[i32]) -> u8
    ensures { result ≡ part_refusal_of (part_sizes_from sizes) part opening.now }
{
    capi::next::lizkarg_next_part_refusal(sizes, part, opening)
}

#[unsafe(no_mangle)]
pub extern "C" fn lizkarg_next_part(sizes: CPartSizes, part: usize, opening: &[i32]) -> CPart
    ensures { Placed (part_sizes_from sizes) part opening.now (place_from result) }
{
    capi::next::lizkarg_next_part(sizes, part, opening)
}
