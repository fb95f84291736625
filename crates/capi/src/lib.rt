// The library for C: each call of the library under a name that begins with `lizkarg_`. A call's contract is the library's, with its
// answer as two numbers. C's rules hold of what is lent: bindings/c/lizkarg.h. Crate capi_c exports these functions.
#![tactic(auto)]

ghost use Rattle.std.specs.Prelude.{◌≡◌};
ghost use Rattle.fold.specs.declared.ZDigits.TheVariants.{One, Two};
ghost use Rattle.fold.specs.Arguments.{statement_of, draws_of, transcript_of};
ghost use Rattle.fold.specs.Verification.{verification};
ghost use Rattle.lizkarg.specs.Calls.{Committed, Projected, Aggregated, GarbageCommitted, Amortized};
ghost use Rattle.sheet.specs.Reading.{number_count};
ghost use Rattle.judge.specs.Judging.{judged_text};
ghost use Rattle.capi.specs.Codes.{shape_from, commit_sizes_from, garbage_sizes_from, sizes_from, Coded, code_of, SheetCoded};

use fold::answers::Code;
use fold::{CommitSizes, GarbageSizes, Shape, StatementSizes, ZDigits};
use sizes::{CCommitSizes, CGarbageSizes, CShape, CSizes};
use types::{CAnswer, CSheet};

pub mod bare_level;
pub mod multiply;
pub mod next;
pub mod sizes;
pub mod types;
pub mod write;

// Message 1: `lizkarg::commit`.
pub fn lizkarg_commit(
    sizes: CCommitSizes,
    a_matrix: &[i32],
    b_matrix: &[i32],
    c_matrix: &[i32],
    witness: &[i32],
    t: &mut [i32],
    g: &mut [i32],
    u1: &mut [i32],
) -> CAnswer
    ensures { Coded (λ answer. Committed (commit_sizes_from sizes) a_matrix.now b_matrix.now c_matrix.now witness.now
        t.old g.old u1.old answer t.new g.new u1.new) result }
{
    let given = CommitSizes::from(sizes);
    let answer = lizkarg::commit(given, a_matrix, b_matrix, c_matrix, witness, t, g, u1);
    types::code(Code::from(answer))
}

// Message 2: `lizkarg::project`.
pub fn lizkarg_project(
    shape: CShape,
    w: usize,
    projections: &[i32],
    witness: &[i32],
    p: &mut [i32],
) -> CAnswer
    ensures { Coded (λ answer. Projected (shape_from shape) w projections.now witness.now p.old answer
        p.new) result }
{
    let given = Shape::from(shape);
    let answer = lizkarg::project(given, w, projections, witness, p);
    types::code(Code::from(answer))
}

// Message 3: `lizkarg::aggregate`.
pub fn lizkarg_aggregate(
    shape: CShape,
    l: usize,
    w: usize,
    constant_terms: &[i32],
    projections: &[i32],
    psi: &[i32],
    omega: &[i32],
    witness: &[i32],
    second_b: &mut [i32],
) -> CAnswer
    ensures { Coded (λ answer. Aggregated (shape_from shape) l w constant_terms.now projections.now psi.now omega.now
        witness.now second_b.old answer second_b.new) result }
{
    let given = Shape::from(shape);
    let answer = lizkarg::aggregate(
        given,
        l,
        w,
        constant_terms,
        projections,
        psi,
        omega,
        witness,
        second_b,
    );
    types::code(Code::from(answer))
}

// Message 4: `lizkarg::commit_garbage`.
pub fn lizkarg_commit_garbage(
    sizes: CGarbageSizes,
    whole: &[i32],
    constant_terms: &[i32],
    projections: &[i32],
    psi: &[i32],
    omega: &[i32],
    alpha: &[i32],
    delta: &[i32],
    d_matrix: &[i32],
    witness: &[i32],
    h: &mut [i32],
    u2: &mut [i32],
) -> CAnswer
    ensures { Coded (λ answer. GarbageCommitted (garbage_sizes_from sizes) whole.now constant_terms.now projections.now
        psi.now omega.now alpha.now delta.now d_matrix.now
        witness.now h.old u2.old answer h.new u2.new) result }
{
    let given = GarbageSizes::from(sizes);
    let answer = lizkarg::commit_garbage(
        given,
        whole,
        constant_terms,
        projections,
        psi,
        omega,
        alpha,
        delta,
        d_matrix,
        witness,
        h,
        u2,
    );
    types::code(Code::from(answer))
}

// Message 5: `lizkarg::amortize`, two digits to base b.
pub fn lizkarg_amortize(
    shape: CShape,
    b: usize,
    c: &[i32],
    witness: &[i32],
    z: &mut [i32],
) -> CAnswer
    ensures { Coded (λ answer. Amortized (shape_from shape) (Two b) c.now witness.now z.old answer
        z.new) result }
{
    let given = Shape::from(shape);
    let answer = lizkarg::amortize(given, ZDigits::Two(b), c, witness, z);
    types::code(Code::from(answer))
}

// Message 5: `lizkarg::amortize`, one digit.
pub fn lizkarg_amortize_one_digit(
    shape: CShape,
    c: &[i32],
    witness: &[i32],
    z: &mut [i32],
) -> CAnswer
    ensures { Coded (λ answer. Amortized (shape_from shape) One c.now witness.now z.old answer
        z.new) result }
{
    let given = Shape::from(shape);
    let answer = lizkarg::amortize(given, ZDigits::One, c, witness, z);
    types::code(Code::from(answer))
}

// The verifier: `lizkarg::verify`.
pub fn lizkarg_verify(
    sizes: CSizes,
    a_matrix: &[i32],
    b_matrix: &[i32],
    c_matrix: &[i32],
    d_matrix: &[i32],
    whole: &[i32],
    constant_terms: &[i32],
    u1: &[i32],
    projections: &[i32],
    p: &[i32],
    psi: &[i32],
    omega: &[i32],
    second_b: &[i32],
    alpha: &[i32],
    delta: &[i32],
    u2: &[i32],
    c: &[i32],
    opening: &[i32],
) -> CAnswer
    ensures { result ≡ code_of (verification (statement_of (sizes_from sizes) a_matrix.now b_matrix.now c_matrix.now
        d_matrix.now whole.now constant_terms.now)
        (draws_of projections.now psi.now omega.now alpha.now delta.now
        c.now) (transcript_of u1.now p.now second_b.now u2.now)
        opening.now) }
{
    let given = StatementSizes::from(sizes);
    let answer = lizkarg::verify(
        given,
        a_matrix,
        b_matrix,
        c_matrix,
        d_matrix,
        whole,
        constant_terms,
        u1,
        projections,
        p,
        psi,
        omega,
        second_b,
        alpha,
        delta,
        u2,
        c,
        opening,
    );
    types::code(Code::from(answer))
}

// How many numbers a sheet holds: `lizkarg::sheet_numbers`.
pub fn lizkarg_sheet_numbers(text: &[u8]) -> usize
    ensures { result ≡ number_count text.now }
{
    lizkarg::sheet_numbers(text)
}

// The reader: `lizkarg::read_sheet`.
pub fn lizkarg_read_sheet(text: &[u8], numbers: &mut [i32]) -> CSheet
    ensures { SheetCoded text.now numbers.old result numbers.new }
{
    let answer = lizkarg::read_sheet(text, numbers);
    types::sheet_code(answer)
}

// The judge of a sheet: `lizkarg::judge_sheet`.
pub fn lizkarg_judge_sheet(text: &[u8]) -> CAnswer
    ensures { result ≡ code_of (judged_text text.now) }
{
    let answer = lizkarg::judge_sheet(text);
    types::code(Code::from(answer))
}
