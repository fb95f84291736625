// The φ_i of the aggregate as lists, from which h, check 7 and the next instance are formed.
ghost use Rattle.std.specs.Prelude.{◌≡◌, ◌*◌, ◌<◌, ◌≤◌, length};
ghost use Rattle.integers.specs.Over.{over};
ghost use Rattle.fold.specs.Messages.{elements, aggregate};
ghost use Rattle.constraints.specs.Known.Facts.{AggregateFacts};
ghost use Rattle.constraints.specs.RowGroups.{OmegaSums};

use crate::aggregated::aggregate_phi;
use crate::projected_rows::projection_row;
use crate::row_groups::OMEGA_SUMS;
use fold::ConstraintSizes;

// The φ_i of the aggregate for part i, as the first elements of `out`. `omega_sums` are the sums of ω.
pub fn write_phi_part(
    sizes: ConstraintSizes,
    whole: &[i32],
    constant_terms: &[i32],
    projections: &[i32],
    psi: &[i32],
    omega: &[i32],
    omega_sums: &[i64; OMEGA_SUMS],
    alpha: &[i32],
    delta: &[i32],
    i: usize,
    out: &mut [i32],
)
    requires aggregate_facts { AggregateFacts sizes.shape.d sizes.shape.n sizes.shape.r sizes.k sizes.l sizes.w whole.now
        constant_terms.now projections.now psi.now omega.now alpha.now delta.now }
    requires omega_sums { OmegaSums sizes.w omega.now omega_sums.now }
    requires i_lt_r { (i < sizes.shape.r) × (sizes.shape.n * sizes.shape.d ≤ length out.old) }
    ensures { out.new ≡ over out.old 0 (elements sizes.shape.d sizes.shape.n
        ((aggregate sizes.shape.d sizes.shape.n sizes.shape.r sizes.k sizes.l sizes.w whole.now
        constant_terms.now projections.now psi.now omega.now alpha.now
        delta.now).φ i)) }
{
    let shape = sizes.shape;
    for y in 0..shape.n {
        let e = i * shape.n + y;
        let projected = projection_row(shape, sizes.w, projections, omega, omega_sums, e);
        let phi = aggregate_phi(
            sizes,
            whole,
            constant_terms,
            psi,
            alpha,
            delta,
            projected,
            e,
        );
        phi.store(shape.d, out, y);
    }
}
