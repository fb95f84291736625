// The first check that fails, or the margin. A check is asked only where those before it pass.
ghost use Rattle.std.specs.Prelude.{◌≡◌};
ghost use Rattle.fold.specs.Rows.{failure};
ghost use Rattle.fold.specs.Answers.{first_failing, judged, verdict_of};
ghost use Rattle.fold.specs.Arguments.{draws_of};
ghost use Rattle.bare.specs.Arguments.{bare_statement_of, bare_transcript_of};
ghost use Rattle.bare.specs.Checks.{bare_check_number};
ghost use Rattle.bare.specs.Verdict.{bare_verdict};
ghost use Rattle.bare.specs.Known.BareFacts.{BareVerifyFacts};
ghost use Rattle.bare.specs.Known.BareFacts.{BareMessageFacts, BareFoldedFacts, BareAggregateFacts};
ghost use Rattle.bare_verifier.specs.Judgement.{message_checks_of, folded_checks_of, aggregate_checks_of, margin_of};

use crate::{aggregate, folded};
use bare::{BareCheck, BareSizes};
use checks::{norms, terms};
use fold::ConstraintSizes;
use fold::answers::{Verdict, require};

// Checks 1 and 2, which need no opening.
pub fn message_checks(
    sizes: BareSizes,
    constant_terms: &[i32],
    p: &[i32],
    psi: &[i32],
    omega: &[i32],
    second_b: &[i32],
) -> Result<(), BareCheck>
    requires { BareMessageFacts sizes constant_terms.now psi.now omega.now p.now second_b.now }
    ensures { failure bare_check_number result ≡ first_failing (message_checks_of sizes constant_terms.now p.now psi.now omega.now second_b.now) }
{
    let one = norms::short_projection(sizes.w, sizes.bound, p);
    require(one, BareCheck::ProjectionLength)?;
    let shape = sizes.shape;
    let constraint_sizes = ConstraintSizes {
        shape,
        k: sizes.k,
        l: sizes.l,
        w: sizes.w,
    };
    let two = terms::constant_terms_hold(constraint_sizes, constant_terms, psi, omega, p, second_b);
    require(two, BareCheck::ConstantTerms)
}

// Checks 3 and 4.
pub fn folded_checks(
    sizes: BareSizes,
    a_matrix: &[i32],
    c: &[i32],
    opening: &[i32],
) -> Result<(), BareCheck>
    requires { BareFoldedFacts sizes a_matrix.now c.now opening.now }
    ensures { failure bare_check_number result ≡ first_failing (folded_checks_of sizes a_matrix.now c.now opening.now) }
{
    let three = folded::amortized(sizes, a_matrix, c, opening);
    require(three, BareCheck::Amortized)?;
    let four = folded::z_garbage(sizes, c, opening);
    require(four, BareCheck::GarbageOfZ)
}

// Checks 5, 6 and 7.
pub fn aggregate_verdict(
    sizes: BareSizes,
    whole: &[i32],
    constant_terms: &[i32],
    projections: &[i32],
    psi: &[i32],
    omega: &[i32],
    second_b: &[i32],
    alpha: &[i32],
    delta: &[i32],
    c: &[i32],
    opening: &[i32],
) -> Verdict<BareCheck>
    requires { BareAggregateFacts sizes whole.now constant_terms.now projections.now psi.now omega.now second_b.now alpha.now delta.now c.now opening.now }
    ensures { verdict_of bare_check_number result ≡ judged (first_failing (aggregate_checks_of sizes whole.now constant_terms.now projections.now psi.now omega.now
        second_b.now alpha.now delta.now c.now opening.now)) (margin_of sizes opening.now) }
{
    let five = aggregate::phi_garbage(
        sizes,
        whole,
        constant_terms,
        projections,
        psi,
        omega,
        second_b,
        alpha,
        delta,
        c,
        opening,
    );
    require(five, BareCheck::GarbageOfPhi)?;
    let six = aggregate::aggregate_holds(
        sizes,
        whole,
        constant_terms,
        psi,
        second_b,
        alpha,
        delta,
        c,
        opening,
    );
    require(six, BareCheck::Aggregate)?;
    aggregate::z_margin(sizes, c, opening).ok_or(BareCheck::LengthOfZ)
}

// The verdict: checks 1 to 7 of a call that is not refused.
pub fn judge(
    sizes: BareSizes,
    a_matrix: &[i32],
    whole: &[i32],
    constant_terms: &[i32],
    projections: &[i32],
    p: &[i32],
    psi: &[i32],
    omega: &[i32],
    second_b: &[i32],
    alpha: &[i32],
    delta: &[i32],
    c: &[i32],
    opening: &[i32],
) -> Verdict<BareCheck>
    requires { BareVerifyFacts sizes a_matrix.now whole.now constant_terms.now projections.now psi.now omega.now alpha.now delta.now
        c.now p.now second_b.now opening.now }
    ensures { verdict_of bare_check_number result ≡ bare_verdict (bare_statement_of sizes a_matrix.now whole.now constant_terms.now)
        (draws_of projections.now psi.now omega.now alpha.now delta.now c.now)
        (bare_transcript_of p.now second_b.now) opening.now }
{
    message_checks(sizes, constant_terms, p, psi, omega, second_b)?;
    folded_checks(sizes, a_matrix, c, opening)?;
    aggregate_verdict(
        sizes,
        whole,
        constant_terms,
        projections,
        psi,
        omega,
        second_b,
        alpha,
        delta,
        c,
        opening,
    )
}
