// "t_i = A s_i .. by part, then row."
ghost use Rattle.std.specs.Prelude.{◌≡◌};
ghost use Rattle.bare.specs.Messages.{bare_t};
ghost use Rattle.bare.specs.Known.BareFacts.{BareCommitFacts};

use fold::Shape;
use prover::commit::write_products;

pub fn write_t(shape: Shape, kappa: usize, a_matrix: &[i32], witness: &[i32], out: &mut [i32])
    requires { BareCommitFacts shape kappa a_matrix.now witness.now out.old }
    ensures { out.new ≡ bare_t shape.d shape.n shape.r kappa a_matrix.now witness.now }
{
    for i in 0..shape.r {
        write_products(
            shape.d,
            shape.n,
            kappa,
            a_matrix,
            witness,
            i,
            out,
            i * kappa,
        );
    }
}
