// SPECIFICATION 7.7 for what the verifier and the next instance share besides matrices: both kinds of constraints and all draws.
ghost use Rattle.std.specs.Prelude.{◌≡◌};
ghost use Rattle.fold.specs.Refusals.{all_of};
ghost use Rattle.fold.specs.Arguments.{VerifySized};
ghost use Rattle.refusals.specs.Lengths as spec;

use crate::lengths::{constraint_lengths, list_fits};
use fold::{ConstraintSizes, Sizes};

pub fn draw_lengths(
    sizes: Sizes,
    whole: &[i32],
    constant_terms: &[i32],
    projections: &[i32],
    psi: &[i32],
    omega: &[i32],
    alpha: &[i32],
    delta: &[i32],
    c: &[i32],
) -> bool
    requires { VerifySized sizes }
    ensures { result ≡ all_of (spec.draw_lengths_of sizes whole.now constant_terms.now projections.now
        psi.now omega.now alpha.now delta.now c.now) }
{
    let shape = sizes.shape;
    let constraint_sizes = ConstraintSizes {
        shape,
        k: sizes.k,
        l: sizes.l,
        w: sizes.w,
    };
    constraint_lengths(
        constraint_sizes,
        whole,
        constant_terms,
        projections,
        psi,
        omega,
        alpha,
        delta,
    ) & list_fits(c, shape.r, shape.d)
}
