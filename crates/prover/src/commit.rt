// Message 1: "t_i = A s_i (A has κ rows); g_ij = <s_i,s_j> for i ≤ j; t in t1 digits to base b1, g in t2 digits to base b2;
// u1 = B·(t digits) + C·(g digits), κ1 rows."
ghost use Rattle.std.specs.Prelude.{◌≡◌, ◌+◌, ◌-◌, ◌*◌, ◌<◌, ◌≤◌, length};
ghost use Rattle.integers.specs.Over.{over};
ghost use Rattle.ring.specs.Element.{Degree, array};
ghost use Rattle.residues.specs.Digits.{Base, split};
ghost use Rattle.fold.specs.Messages.{elements, t};
ghost use Rattle.fold.specs.Known.WorkFacts.{TFacts, GFacts, U₁Facts};
ghost use Rattle.prover.specs.Known.Facts.{PartFacts};
ghost use Rattle.prover.specs.Outputs.{outer, t_of, g_of, u₁_of};

use crate::garbage::{write_garbage_digits, write_pair_products};
use fold::counts::{garbage_size, t_size};
use fold::limits::PAIR_ROOM;
use fold::{CommitSizes, Shape};
use residues::digits::split_digits;
use ring::element::Element;
use ring::product::inner;

// t_i = A s_i: its κ elements, written from element `at` on.
pub fn write_products(
    d: usize,
    n: usize,
    kappa: usize,
    a_matrix: &[i32],
    witness: &[i32],
    i: usize,
    block: &mut [i32],
    at: usize,
)
    requires degree { Degree d }
    requires part_facts { PartFacts d n kappa i a_matrix.now witness.now }
    requires d_in_bounds { (at + kappa) * d ≤ length block.old }
    ensures { block.new ≡ over block.old (at * d) (elements d kappa (t d n a_matrix.now witness.now i)) }
{
    for k in 0..kappa {
        let product = Element {
            coefficients: inner(d, n, a_matrix, k * n, witness, i * n),
        };
        product.store(d, block, at + k);
    }
}

// The digits of t_i: by digit, then row.
fn write_t_part(
    d: usize,
    n: usize,
    kappa: usize,
    b1: usize,
    t1: usize,
    a_matrix: &[i32],
    witness: &[i32],
    i: usize,
    block: &mut [i32],
)
    requires degree { Degree d }
    requires base { Base b1 }
    requires part_facts { PartFacts d n kappa i a_matrix.now witness.now }
    requires t1_nonzero { (0 < t1) × (length block.old ≡ t1 * (kappa * d)) }
    ensures { block.new ≡ split b1 t1 (elements d kappa (t d n a_matrix.now witness.now i)) }
{
    let last = (t1 - 1) * kappa;
    write_products(d, n, kappa, a_matrix, witness, i, block, last);
    split_digits(b1, t1, kappa * d, block);
}

// The t digits: by part, then digit, then row.
pub fn write_t(sizes: CommitSizes, a_matrix: &[i32], witness: &[i32], out: &mut [i32])
    requires { TFacts sizes a_matrix.now witness.now out.old }
    ensures { out.new ≡ t_of sizes a_matrix.now witness.now }
{
    let Shape { d, n, r } = sizes.shape;
    let width = sizes.t1 * (sizes.kappa * d);
    for i in 0..r {
        let at = i * width;
        write_t_part(
            d,
            n,
            sizes.kappa,
            sizes.b1,
            sizes.t1,
            a_matrix,
            witness,
            i,
            &mut out[at..at + width],
        );
    }
}

// The g digits: by i, then j, then digit.
pub fn write_g(sizes: CommitSizes, witness: &[i32], out: &mut [i32])
    requires { GFacts sizes witness.now out.old }
    ensures { out.new ≡ g_of sizes witness.now }
{
    let Shape { d, n, r } = sizes.shape;
    let mut products = [0i32; PAIR_ROOM];
    write_pair_products(d, n, r, witness, &mut products);
    write_garbage_digits(d, r, sizes.b2, sizes.t2, &products, out);
}

// Row k of B·x + C·y, for vectors x of m and y of l elements.
fn outer_row(
    d: usize,
    m: usize,
    b_matrix: &[i32],
    x: &[i32],
    l: usize,
    c_matrix: &[i32],
    y: &[i32],
    k: usize,
) -> Element
    requires degree { Degree d }
    requires m_bound { (m ≤ 4096) × ((k * m + m) * d ≤ length b_matrix.now) × (m * d ≤ length x.now) }
    requires l_bound { (l ≤ 4096) × ((k * l + l) * d ≤ length c_matrix.now) × (l * d ≤ length y.now) }
    ensures { result.coefficients ≡ array d (outer d m l b_matrix.now x.now c_matrix.now y.now k) }
{
    let left = Element {
        coefficients: inner(d, m, b_matrix, k * m, x, 0),
    };
    let right = Element {
        coefficients: inner(d, l, c_matrix, k * l, y, 0),
    };
    left.sum(d, right)
}

// B·x + C·y, row by row.
fn write_outer(
    d: usize,
    rows: usize,
    m: usize,
    b_matrix: &[i32],
    x: &[i32],
    l: usize,
    c_matrix: &[i32],
    y: &[i32],
    out: &mut [i32],
)
    requires degree { Degree d }
    requires m_bound { (m ≤ 4096) × (rows * m * d ≤ length b_matrix.now) × (m * d ≤ length x.now) }
    requires l_bound { (l ≤ 4096) × (rows * l * d ≤ length c_matrix.now) × (l * d ≤ length y.now) }
    requires out_len { length out.old ≡ rows * d }
    ensures { out.new ≡ elements d rows (outer d m l b_matrix.now x.now c_matrix.now y.now) }
{
    for k in 0..rows {
        outer_row(d, m, b_matrix, x, l, c_matrix, y, k).store(d, out, k);
    }
}

// u1 = B·(t digits) + C·(g digits).
pub fn write_u1(
    sizes: CommitSizes,
    b_matrix: &[i32],
    c_matrix: &[i32],
    t: &[i32],
    g: &[i32],
    out: &mut [i32],
)
    requires { U₁Facts sizes b_matrix.now c_matrix.now t.now g.now out.old }
    ensures { out.new ≡ u₁_of sizes b_matrix.now c_matrix.now t.now g.now }
{
    let m = t_size(sizes.shape.r, sizes.kappa, sizes.t1);
    let l = garbage_size(sizes.shape.r, sizes.t2);
    write_outer(
        sizes.shape.d,
        sizes.kappa1,
        m,
        b_matrix,
        t,
        l,
        c_matrix,
        g,
        out,
    );
}
