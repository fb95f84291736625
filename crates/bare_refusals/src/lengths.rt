// SPECIFICATION 7.7 for the calls of the bare level: the lengths that their sizes give. The sizes have passed rows 1 to 3.
ghost use Rattle.std.specs.Prelude.{◌≡◌, [], ◌∷◌, ◌*◌, ◌-◌, ◌≤◌};
ghost use Rattle.fold.specs.Refusals.{all_of};
ghost use Rattle.fold.specs.Refusals as table;
ghost use Rattle.fold.specs.Known.Facts.{Shaped};
ghost use Rattle.fold.specs.Limits.{most_commitment_rank};
ghost use Rattle.bare.specs.Opening.{bare_size};

use bare::BareSizes;
use bare::places::{TURN, bare_size};
use fold::Shape;
use limits::rows::sized;
use refusals::lengths::{five_fit, list_fits, matrix_fits};

pub fn commit_lengths(
    shape: Shape,
    kappa: usize,
    a_matrix: &[i32],
    witness: &[i32],
    t: &[i32],
) -> bool
    requires { Shaped shape.d shape.n shape.r × (kappa ≤ most_commitment_rank) }
    ensures { result ≡ all_of (table.sized a_matrix.now (kappa * shape.n * shape.d) ∷ table.sized witness.now (shape.r * shape.n * shape.d)
        ∷ table.sized t.now (shape.r * kappa * shape.d) ∷ []) }
{
    matrix_fits(a_matrix, kappa, shape.n, shape.d)
        & matrix_fits(witness, shape.r, shape.n, shape.d)
        & matrix_fits(t, shape.r, kappa, shape.d)
}

// A turn, from 1 to r.
pub fn turn_lengths(
    shape: Shape,
    turn: usize,
    phi: &[i32],
    c: &[i32],
    witness: &[i32],
    out: &[i32],
) -> bool
    requires shaped { Shaped shape.d shape.n shape.r }
    requires le_turn { (1 ≤ turn) × (turn ≤ shape.r) }
    ensures { result ≡ all_of (table.sized phi.now (shape.r * shape.n * shape.d) ∷ table.sized c.now ((turn - 1) * shape.d)
        ∷ table.sized witness.now (shape.r * shape.n * shape.d) ∷ table.sized out.now (4 * shape.d) ∷ []) }
{
    let before = turn - 1;
    matrix_fits(phi, shape.r, shape.n, shape.d)
        & list_fits(c, before, shape.d)
        & matrix_fits(witness, shape.r, shape.n, shape.d)
        & list_fits(out, TURN, shape.d)
}

// The bare opening, p and b''.
pub fn opened_lengths(sizes: BareSizes, opening: &[i32], p: &[i32], second_b: &[i32]) -> bool
    requires { Shaped sizes.shape.d sizes.shape.n sizes.shape.r × (sizes.kappa ≤ most_commitment_rank) }
    ensures { result ≡ all_of (table.sized opening.now (bare_size sizes.shape.n sizes.shape.r sizes.kappa * sizes.shape.d)
        ∷ table.sized p.now sizes.w ∷ table.sized second_b.now (5 * sizes.shape.d) ∷ []) }
{
    let elements = bare_size(sizes.shape.n, sizes.shape.r, sizes.kappa);
    list_fits(opening, elements, sizes.shape.d)
        & sized(p, sizes.w)
        & five_fit(second_b, sizes.shape.d)
}

// A and the challenges.
pub fn given_lengths(sizes: BareSizes, a_matrix: &[i32], c: &[i32]) -> bool
    requires { Shaped sizes.shape.d sizes.shape.n sizes.shape.r × (sizes.kappa ≤ most_commitment_rank) }
    ensures { result ≡ all_of (table.sized a_matrix.now (sizes.kappa * sizes.shape.n * sizes.shape.d)
        ∷ table.sized c.now (sizes.shape.r * sizes.shape.d) ∷ []) }
{
    matrix_fits(a_matrix, sizes.kappa, sizes.shape.n, sizes.shape.d)
        & list_fits(c, sizes.shape.r, sizes.shape.d)
}
