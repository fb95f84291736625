// Message 2: "Given w projection rows, p_j = the centred dot product of row j with all coefficients of all parts."
ghost use Rattle.std.specs.Prelude.{◌≡◌, true, ◌≤◌, length, nat_abs, ◌+ℤ◌, ◌*ℤ◌};
ghost use Rattle.residues.specs.Modulus.{centred};
ghost use Rattle.residues.specs.Range.{projection_entries};
ghost use Rattle.fold.specs.Messages.{p};
ghost use Rattle.fold.specs.Known.CallFacts.{ProjectFacts};
ghost use Rattle.prover.specs.Projected.{dot};

use fold::Shape;
use residues::modulus::centre;

// One summand more of a dot product, where x is a projection entry.
fn add_product(acc: i64, x: i32, y: i32) -> i64
    requires { (nat_abs acc ≤ 4611686018427387904) × (nat_abs x ≤ 1) }
    ensures { result ≡ acc +ℤ x *ℤ y }
{
    acc + x as i64 * y as i64
}

// The centred dot product of a projection row and the witness. The summands are below 2^31 each, so the sum of all needs no reduction.
fn project_row(row: &[i32], witness: &[i32]) -> i32
    requires { (projection_entries row.now ≡ true) × (length row.now ≡ length witness.now) × (length witness.now ≤ 262144) }
    ensures { result ≡ centred (dot row.now witness.now (length witness.now)) }
{
    let mut acc: i64 = 0;
    for y in 0..witness.len() {
        acc = add_product(acc, row[y], witness[y]);
    }
    centre(acc)
}

// p: one number for each projection row.
pub fn write_p(shape: Shape, w: usize, projections: &[i32], witness: &[i32], out: &mut [i32])
    requires { ProjectFacts shape w projections.now witness.now out.old }
    ensures { out.new ≡ p shape.d shape.n shape.r w projections.now witness.now }
{
    let size = witness.len();
    for j in 0..w {
        let at = j * size;
        out[j] = project_row(&projections[at..at + size], witness);
    }
}
