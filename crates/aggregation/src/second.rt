// Message 3: "b''_k is the value of that function without its constant", for the five second functions. The five sums are formed
// together, from a row of five at each place.
ghost use Rattle.std.specs.Prelude.{◌≡◌, ◌+◌, ◌-◌, ◌*◌, ◌<◌, length};
ghost use Rattle.algebra.specs.Triangle.{pair};
ghost use Rattle.fold.specs.Sizes.{pairs};
ghost use Rattle.fold.specs.Messages.{b''};
ghost use Rattle.constraints.specs.RowGroups.{OmegaSums};
ghost use Rattle.fold.specs.Known.WorkFacts.{PairFacts, ValueFacts};
ghost use Rattle.fold.specs.Known.CallFacts.{AggregateCallFacts};
ghost use Rattle.aggregation.specs.Rows.{Sums};
ghost use Rattle.aggregation.specs.Values.{pair_summand, witness_summand};

use crate::rows;
use constraints::projected_rows::projection_row;
use constraints::row_groups;
use constraints::row_groups::OMEGA_SUMS;
use constraints::second::{second_row_a, second_row_phi};
use fold::Shape;
use ring::element::Element;

// The sums over the pairs before place `at`, with the pairs of part i, which stand from there on.
fn add_part_pairs(
    shape: Shape,
    l: usize,
    constant_terms: &[i32],
    psi: &[i32],
    witness: &[i32],
    i: usize,
    at: usize,
    mut sums: [[i32; 64]; 5],
) -> [[i32; 64]; 5]
    requires pair_facts { PairFacts shape.d shape.n shape.r l constant_terms.now psi.now witness.now }
    requires i_lt_r { (i < shape.r) × (at ≡ pair shape.r i i) }
    requires sums { Sums shape.d (pair_summand shape.d shape.n shape.r l constant_terms.now psi.now witness.now) at sums }
    ensures { Sums shape.d (pair_summand shape.d shape.n shape.r l constant_terms.now psi.now
        witness.now) (at + (shape.r - i)) result }
{
    for k in 0..shape.r - i {
        let row = second_row_a(shape, l, constant_terms, psi, at + k);
        let more = rows::add_pair(shape.d, shape.n, witness, i, i + k, sums, row);
        sums = more;
    }
    sums
}

// The quadratic parts of the five values: the a''_k, each times the product <s_i, s_j> of its pair.
fn weigh_pairs(
    shape: Shape,
    l: usize,
    constant_terms: &[i32],
    psi: &[i32],
    witness: &[i32],
) -> [[i32; 64]; 5]
    requires { PairFacts shape.d shape.n shape.r l constant_terms.now psi.now witness.now }
    ensures { Sums shape.d (pair_summand shape.d shape.n shape.r l constant_terms.now psi.now
        witness.now) (pairs shape.r) result }
{
    let mut sums = [[0i32; 64]; 5];
    let mut at = 0;
    for i in 0..shape.r {
        let more = add_part_pairs(shape, l, constant_terms, psi, witness, i, at, sums);
        sums = more;
        at += shape.r - i;
    }
    sums
}

// The linear parts of the five values: the φ''_k, each times its element of the witness. `omega_sums` are the sums of ω.
fn weigh_witness(
    shape: Shape,
    l: usize,
    w: usize,
    constant_terms: &[i32],
    projections: &[i32],
    psi: &[i32],
    omega: &[i32],
    omega_sums: &[i64; OMEGA_SUMS],
    witness: &[i32],
) -> [[i32; 64]; 5]
    requires value_facts { ValueFacts shape.d shape.n shape.r l w constant_terms.now projections.now psi.now omega.now witness.now }
    requires omega_sums { OmegaSums w omega.now omega_sums.now }
    ensures { Sums shape.d (witness_summand shape.d shape.n shape.r l w constant_terms.now projections.now
        psi.now omega.now witness.now) (shape.r * shape.n) result }
{
    let mut sums = [[0i32; 64]; 5];
    for e in 0..shape.r * shape.n {
        let projected = projection_row(shape, w, projections, omega, omega_sums, e);
        let row = second_row_phi(shape, l, constant_terms, psi, projected, e);
        let element = Element::from_slice(shape.d, witness, e);
        let more = rows::add_products(shape.d, sums, row, element.coefficients);
        sums = more;
    }
    sums
}

// b''.
pub fn write_second_b(
    shape: Shape,
    l: usize,
    w: usize,
    constant_terms: &[i32],
    projections: &[i32],
    psi: &[i32],
    omega: &[i32],
    witness: &[i32],
    second_b: &mut [i32],
)
    requires { AggregateCallFacts shape l w constant_terms.now projections.now psi.now omega.now witness.now second_b.old }
    ensures { second_b.new ≡ b'' shape.d shape.n shape.r l w constant_terms.now projections.now psi.now omega.now witness.now }
{
    let mut omega_sums = [0i64; OMEGA_SUMS];
    row_groups::write_omega_sums(w, omega, &mut omega_sums);
    let quadratic = weigh_pairs(shape, l, constant_terms, psi, witness);
    let linear = weigh_witness(
        shape,
        l,
        w,
        constant_terms,
        projections,
        psi,
        omega,
        &omega_sums,
        witness,
    );
    rows::write_sums(shape.d, quadratic, linear, second_b);
}
