// The library's calls: the ring product, the five messages, the verifier, the next instance, the bare level, and the sheet, read, written and judged.
// None has a `requires`: what it cannot take it refuses by number.
#![tactic(auto)]

ghost use Rattle.std.specs.Prelude.{◌≡◌};
ghost use Rattle.fold.specs.Answers.{written_of};
ghost use Rattle.bare.specs.Calls.{BareCommitted, BarePhiFormed, BareTurned};
ghost use Rattle.lizkarg.specs.Calls.{product_in, product_of, Committed, Projected, Aggregated, GarbageCommitted, Amortized};

pub use bare_verifier::bare_verify;
use fold::answers::Answer;
use fold::{CommitSizes, ConstraintSizes, GarbageSizes, Shape, ZDigits};
pub use judge::judge_sheet;
pub use next_instance::next_instance;
pub use next_instance::part::next_part;
pub use refusals::part::next_part_refusal;
use ring::element::Element;
pub use sheet::reader::{read_sheet, sheet_numbers};
pub use verifier::verify;
pub use writer::{sheet_bytes, write_sheet};

// The product of two ring elements in Z_q[X]/(X^d+1).
pub fn multiply(d: usize, x: Element, y: Element) -> Answer<Element>
    ensures { product_in result ≡ product_of d x.coefficients y.coefficients }
{
    refusals::product_refusal(d, x, y)?;
    Ok(x.product(d, y))
}

// Message 1: the inner commitments t and the products g, in digits, and the outer commitment u1.
pub fn commit(
    sizes: CommitSizes,
    a_matrix: &[i32],
    b_matrix: &[i32],
    c_matrix: &[i32],
    witness: &[i32],
    t: &mut [i32],
    g: &mut [i32],
    u1: &mut [i32],
) -> Answer<()>
    ensures { Committed sizes a_matrix.now b_matrix.now c_matrix.now witness.now t.old
        g.old u1.old (written_of result) t.new g.new u1.new }
{
    refusals::commit_refusal(sizes, a_matrix, b_matrix, c_matrix, witness, t, g, u1)?;
    prover::commit::write_t(sizes, a_matrix, witness, t);
    prover::commit::write_g(sizes, witness, g);
    prover::commit::write_u1(sizes, b_matrix, c_matrix, t, g, u1);
    Ok(())
}

// Message 2: the projections p.
pub fn project(
    shape: Shape,
    w: usize,
    projections: &[i32],
    witness: &[i32],
    p: &mut [i32],
) -> Answer<()>
    ensures { Projected shape w projections.now witness.now p.old (written_of result) p.new }
{
    refusals::project_refusal(shape, w, projections, witness, p)?;
    prover::project::write_p(shape, w, projections, witness, p);
    Ok(())
}

// Message 3: the values b'' of the five second functions, here second_b.
pub fn aggregate(
    shape: Shape,
    l: usize,
    w: usize,
    constant_terms: &[i32],
    projections: &[i32],
    psi: &[i32],
    omega: &[i32],
    witness: &[i32],
    second_b: &mut [i32],
) -> Answer<()>
    ensures { Aggregated shape l w constant_terms.now projections.now psi.now omega.now
        witness.now second_b.old (written_of result) second_b.new }
{
    refusals::aggregate_refusal(
        shape,
        l,
        w,
        constant_terms,
        projections,
        psi,
        omega,
        witness,
        second_b,
    )?;
    aggregation::second::write_second_b(
        shape,
        l,
        w,
        constant_terms,
        projections,
        psi,
        omega,
        witness,
        second_b,
    );
    Ok(())
}

// Message 4: the garbage h of the aggregate, in digits, and its commitment u2.
pub fn commit_garbage(
    sizes: GarbageSizes,
    whole: &[i32],
    constant_terms: &[i32],
    projections: &[i32],
    psi: &[i32],
    omega: &[i32],
    alpha: &[i32],
    delta: &[i32],
    d_matrix: &[i32],
    witness: &[i32],
    h: &mut [i32],
    u2: &mut [i32],
) -> Answer<()>
    ensures { GarbageCommitted sizes whole.now constant_terms.now projections.now psi.now omega.now
        alpha.now delta.now d_matrix.now witness.now h.old
        u2.old (written_of result) h.new u2.new }
{
    refusals::garbage_refusal(
        sizes,
        whole,
        constant_terms,
        projections,
        psi,
        omega,
        alpha,
        delta,
        d_matrix,
        witness,
        h,
        u2,
    )?;
    aggregation::garbage::write_h(
        sizes,
        whole,
        constant_terms,
        projections,
        psi,
        omega,
        alpha,
        delta,
        witness,
        h,
    );
    aggregation::garbage::write_u2(sizes, d_matrix, h, u2);
    Ok(())
}

// Message 5: z, in two digits to a base, or in one.
pub fn amortize(
    shape: Shape,
    digits: ZDigits,
    c: &[i32],
    witness: &[i32],
    z: &mut [i32],
) -> Answer<()>
    ensures { Amortized shape digits c.now witness.now z.old (written_of result) z.new }
{
    let tz = digits.count();
    let b = digits.base();
    refusals::amortize_refusal(tz, shape, b, c, witness, z)?;
    prover::amortize::write_z(tz, shape, b, c, witness, z);
    Ok(())
}

// The bare level: t, in the clear.
pub fn bare_commit(
    shape: Shape,
    kappa: usize,
    a_matrix: &[i32],
    witness: &[i32],
    t: &mut [i32],
) -> Answer<()>
    ensures { BareCommitted shape kappa a_matrix.now witness.now t.old (written_of result) t.new }
{
    bare_refusals::bare_commit_refusal(shape, kappa, a_matrix, witness, t)?;
    bare_prover::commit::write_t(shape, kappa, a_matrix, witness, t);
    Ok(())
}

// The bare level: the φ of the aggregate, which the turns are lent.
pub fn bare_phi(
    sizes: ConstraintSizes,
    whole: &[i32],
    constant_terms: &[i32],
    projections: &[i32],
    psi: &[i32],
    omega: &[i32],
    alpha: &[i32],
    delta: &[i32],
    phi: &mut [i32],
) -> Answer<()>
    ensures { BarePhiFormed sizes whole.now constant_terms.now projections.now psi.now omega.now
        alpha.now delta.now phi.old (written_of result) phi.new }
{
    bare_refusals::bare_phi_refusal(
        sizes,
        whole,
        constant_terms,
        projections,
        psi,
        omega,
        alpha,
        delta,
        phi,
    )?;
    bare_prover::phi::write_phi(
        sizes,
        whole,
        constant_terms,
        projections,
        psi,
        omega,
        alpha,
        delta,
        phi,
    );
    Ok(())
}

// The bare level: the four elements of a turn, from the challenges before it.
pub fn bare_turn(
    shape: Shape,
    turn: usize,
    phi: &[i32],
    c: &[i32],
    witness: &[i32],
    garbage: &mut [i32],
) -> Answer<()>
    ensures { BareTurned shape turn phi.now c.now witness.now garbage.old (written_of result) garbage.new }
{
    bare_refusals::bare_turn_refusal(shape, turn, phi, c, witness, garbage)?;
    bare_prover::turn::write_turn(shape, turn, phi, c, witness, garbage);
    Ok(())
}
