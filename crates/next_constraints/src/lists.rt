// The four lists from which the constraints of the next instance are written, each formed once.
ghost use Rattle.std.specs.Prelude.{◌*◌, ◌≤◌, length};
ghost use Rattle.constraints.specs.Known.Facts.{AggregateFacts};
ghost use Rattle.next_constraints.specs.Tables.{TableRoom, Tables};

use crate::folded::write_folded;
use crate::tables::{write_aggregate_a, write_diagonal, write_products};
use fold::{ConstraintSizes, Sizes};

pub fn write_tables(
    sizes: Sizes,
    whole: &[i32],
    constant_terms: &[i32],
    projections: &[i32],
    psi: &[i32],
    omega: &[i32],
    alpha: &[i32],
    delta: &[i32],
    c: &[i32],
    folded: &mut [i32],
    products: &mut [i32],
    aggregate_a: &mut [i32],
    diagonal: &mut [i32],
)
    requires aggregate_facts { AggregateFacts sizes.shape.d sizes.shape.n sizes.shape.r sizes.k sizes.l sizes.w whole.now constant_terms.now projections.now psi.now
        omega.now alpha.now delta.now }
    requires d_in_bounds { sizes.shape.r * sizes.shape.d ≤ length c.now }
    requires table_room { TableRoom sizes.shape.d sizes.shape.n sizes.shape.r folded.old products.old aggregate_a.old diagonal.old }
    ensures { Tables sizes.shape.d sizes.shape.n sizes.shape.r sizes.k sizes.l sizes.w whole.now constant_terms.now
        projections.now psi.now omega.now alpha.now delta.now c.now
        folded.new products.new aggregate_a.new diagonal.new }
{
    let shape = sizes.shape;
    let d = shape.d;
    let r = shape.r;
    let constraint_sizes = ConstraintSizes {
        shape,
        k: sizes.k,
        l: sizes.l,
        w: sizes.w,
    };
    write_folded(
        constraint_sizes,
        whole,
        constant_terms,
        projections,
        psi,
        omega,
        alpha,
        delta,
        c,
        folded,
    );
    write_products(d, r, c, products);
    write_aggregate_a(
        constraint_sizes,
        whole,
        constant_terms,
        psi,
        alpha,
        delta,
        aggregate_a,
    );
    write_diagonal(d, r, diagonal);
}
