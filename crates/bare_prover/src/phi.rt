// The φ_1..φ_r of the aggregate, part by part.
ghost use Rattle.std.specs.Prelude.{◌≡◌};
ghost use Rattle.bare.specs.Calls.{phi_of};
ghost use Rattle.bare.specs.Known.BareFacts.{BarePhiFacts};

use constraints::phi::write_phi_part;
use constraints::row_groups;
use constraints::row_groups::OMEGA_SUMS;
use fold::ConstraintSizes;

pub fn write_phi(
    sizes: ConstraintSizes,
    whole: &[i32],
    constant_terms: &[i32],
    projections: &[i32],
    psi: &[i32],
    omega: &[i32],
    alpha: &[i32],
    delta: &[i32],
    out: &mut [i32],
)
    requires { BarePhiFacts sizes whole.now constant_terms.now projections.now psi.now omega.now alpha.now delta.now out.old }
    ensures { out.new ≡ phi_of sizes whole.now constant_terms.now projections.now psi.now
        omega.now alpha.now delta.now }
{
    let mut omega_sums = [0i64; OMEGA_SUMS];
    row_groups::write_omega_sums(sizes.w, omega, &mut omega_sums);
    let width = sizes.shape.n * sizes.shape.d;
    let mut at = 0;
    for i in 0..sizes.shape.r {
        let next = at + width;
        write_phi_part(
            sizes,
            whole,
            constant_terms,
            projections,
            psi,
            omega,
            &omega_sums,
            alpha,
            delta,
            i,
            &mut out[at..next],
        );
        at = next;
    }
}
