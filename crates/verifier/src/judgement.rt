// The first check that fails, or the margin. A check is asked only where those before it pass.
ghost use Rattle.std.specs.Prelude.{◌≡◌, List, ◌<◌, ◌≤◌, ℤ};
ghost use Rattle.fold.specs.Rows.{check_number, failure};
ghost use Rattle.fold.specs.Answers.{first_failing, judged, verdict_of};
ghost use Rattle.fold.specs.Known.WorkFacts.{MessageFacts, OuterFacts, AmortizedFacts, RelationFacts, OpeningFacts};
ghost use Rattle.fold.specs.Known.CallFacts.{VerifyFacts};
ghost use Rattle.fold.specs.Arguments.{statement_with, draws_of, transcript_of};
ghost use Rattle.fold.specs.Verdict.{verdict};
ghost use Rattle.verifier.specs.Judgement.{message_checks_of, outer_checks_of, amortized_checks_of, last_checks_of, opening_checks_of, margin_of, Recomposed};

use checks::{amortized, linear, norms, outer, recomposed, relation, terms};
use fold::answers::{Check, Verdict, require};
use fold::limits::PART_ROOM;
use fold::{ConstraintSizes, Sizes};

// Checks 1 and 2, which need no opening.
pub fn message_checks(
    sizes: Sizes,
    constant_terms: &[i32],
    p: &[i32],
    psi: &[i32],
    omega: &[i32],
    second_b: &[i32],
) -> Result<(), Check>
    requires { MessageFacts sizes constant_terms.now psi.now omega.now p.now second_b.now }
    ensures { failure check_number result ≡ first_failing (message_checks_of sizes constant_terms.now p.now psi.now omega.now
        second_b.now) }
{
    let one = norms::short_projection(sizes.w, sizes.bound, p);
    require(one, Check::ProjectionLength)?;
    let shape = sizes.shape;
    let constraint_sizes = ConstraintSizes {
        shape,
        k: sizes.k,
        l: sizes.l,
        w: sizes.w,
    };
    let two = terms::constant_terms_hold(constraint_sizes, constant_terms, psi, omega, p, second_b);
    require(two, Check::ConstantTerms)
}

// Checks 3 and 4.
pub fn outer_checks(
    tz: usize,
    sizes: Sizes,
    b_matrix: &[i32],
    c_matrix: &[i32],
    d_matrix: &[i32],
    u1: &[i32],
    u2: &[i32],
    opening: &[i32],
) -> Result<(), Check>
    requires tz_bound { tz ≤ 2 }
    requires outer_facts { OuterFacts tz sizes b_matrix.now c_matrix.now d_matrix.now u1.now u2.now opening.now }
    ensures { failure check_number result ≡ first_failing (outer_checks_of tz sizes b_matrix.now c_matrix.now d_matrix.now
        u1.now u2.now opening.now) }
{
    let three = outer::first_outer(tz, sizes, b_matrix, c_matrix, u1, opening);
    require(three, Check::FirstOuter)?;
    let four = outer::second_outer(tz, sizes, d_matrix, u2, opening);
    require(four, Check::SecondOuter)
}

// Checks 5 and 6, with the recomposed z at the start of a slice.
fn amortized_checks(
    tz: usize,
    sizes: Sizes,
    a_matrix: &[i32],
    c: &[i32],
    z: &[i32],
    opening: &[i32],
) -> Result<(), Check>
    requires tz_bound { tz ≤ 2 }
    requires amortized_facts { AmortizedFacts tz sizes a_matrix.now c.now opening.now }
    requires recomposed { Recomposed tz sizes opening.now z.now }
    ensures { failure check_number result ≡ first_failing (amortized_checks_of tz sizes a_matrix.now c.now opening.now) }
{
    let five = amortized::amortized(tz, sizes, a_matrix, c, z, opening);
    require(five, Check::Amortized)?;
    let six = amortized::self_product(tz, sizes, c, z, opening);
    require(six, Check::SelfProduct)
}

// Checks 8 and 9. The projection rows and ω are no part of the aggregate's a.
fn last_verdict(
    tz: usize,
    sizes: Sizes,
    whole: &[i32],
    constant_terms: &[i32],
    psi: &[i32],
    alpha: &[i32],
    delta: &[i32],
    second_b: &[i32],
    opening: &[i32],
) -> Verdict
    requires tz_bound { tz ≤ 2 }
    requires relation_facts { RelationFacts tz sizes whole.now constant_terms.now psi.now alpha.now delta.now second_b.now opening.now }
    ensures { (projections ω : List ℤ) → verdict_of check_number result ≡ judged (first_failing (last_checks_of tz sizes whole.now constant_terms.now projections
        psi.now ω second_b.now alpha.now delta.now opening.now))
        (margin_of tz sizes opening.now) }
{
    let eight = relation::relation_holds(
        tz,
        sizes,
        whole,
        constant_terms,
        psi,
        alpha,
        delta,
        second_b,
        opening,
    );
    require(eight, Check::Relation)?;
    norms::opening_margin(tz, sizes, opening).ok_or(Check::OpeningLength)
}

// Checks 5 to 9, with z recomposed once.
pub fn opening_verdict(
    tz: usize,
    sizes: Sizes,
    a_matrix: &[i32],
    whole: &[i32],
    constant_terms: &[i32],
    projections: &[i32],
    psi: &[i32],
    omega: &[i32],
    second_b: &[i32],
    alpha: &[i32],
    delta: &[i32],
    c: &[i32],
    opening: &[i32],
) -> Verdict
    requires tz_nonzero { (0 < tz) × (tz ≤ 2) }
    requires opening_facts { OpeningFacts tz sizes a_matrix.now whole.now constant_terms.now projections.now psi.now omega.now second_b.now alpha.now delta.now
        c.now opening.now }
    ensures { verdict_of check_number result ≡ judged (first_failing (opening_checks_of tz sizes a_matrix.now whole.now constant_terms.now projections.now
        psi.now omega.now second_b.now alpha.now delta.now c.now
        opening.now)) (margin_of tz sizes opening.now) }
{
    let mut z = [0i32; PART_ROOM];
    recomposed::write_z(tz, sizes.shape.d, sizes.shape.n, sizes.b, opening, &mut z);
    amortized_checks(tz, sizes, a_matrix, c, &z, opening)?;
    let shape = sizes.shape;
    let constraint_sizes = ConstraintSizes {
        shape,
        k: sizes.k,
        l: sizes.l,
        w: sizes.w,
    };
    let sum = linear::linear_sum(
        constraint_sizes,
        whole,
        constant_terms,
        projections,
        psi,
        omega,
        alpha,
        delta,
        c,
        &z,
    );
    let seven = linear::linear_holds(tz, sizes, sum, c, opening);
    require(seven, Check::Linear)?;
    last_verdict(
        tz,
        sizes,
        whole,
        constant_terms,
        psi,
        alpha,
        delta,
        second_b,
        opening,
    )
}

// The verdict: checks 1 to 9 of a call that is not refused.
pub fn judge(
    tz: usize,
    sizes: Sizes,
    a_matrix: &[i32],
    b_matrix: &[i32],
    c_matrix: &[i32],
    d_matrix: &[i32],
    whole: &[i32],
    constant_terms: &[i32],
    u1: &[i32],
    projections: &[i32],
    p: &[i32],
    psi: &[i32],
    omega: &[i32],
    second_b: &[i32],
    alpha: &[i32],
    delta: &[i32],
    u2: &[i32],
    c: &[i32],
    opening: &[i32],
) -> Verdict
    requires tz_nonzero { (0 < tz) × (tz ≤ 2) }
    requires facts { VerifyFacts tz sizes a_matrix.now b_matrix.now c_matrix.now d_matrix.now whole.now constant_terms.now projections.now psi.now
        omega.now alpha.now delta.now c.now u1.now p.now second_b.now u2.now opening.now }
    ensures { verdict_of check_number result ≡ verdict (statement_with tz sizes a_matrix.now b_matrix.now c_matrix.now
        d_matrix.now whole.now constant_terms.now)
        (draws_of projections.now psi.now omega.now alpha.now delta.now
        c.now) (transcript_of u1.now p.now second_b.now u2.now)
        opening.now }
{
    message_checks(sizes, constant_terms, p, psi, omega, second_b)?;
    outer_checks(tz, sizes, b_matrix, c_matrix, d_matrix, u1, u2, opening)?;
    opening_verdict(
        tz,
        sizes,
        a_matrix,
        whole,
        constant_terms,
        projections,
        psi,
        omega,
        second_b,
        alpha,
        delta,
        c,
        opening,
    )
}
