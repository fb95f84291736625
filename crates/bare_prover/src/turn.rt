// A turn: "the sum over j < i of (<φ_j,s_i> + <φ_i,s_j>)c_j; <φ_i,s_i>; 2·(the sum over j < i of <s_i,s_j>c_j); <s_i,s_i>." Inside, turns are counted from 0.
ghost use Rattle.std.specs.Prelude.{◌≡◌, ◌-◌, ◌*◌, ◌<◌, ◌≤◌, length};
ghost use Rattle.algebra.specs.Sum.{sum};
ghost use Rattle.algebra.specs.DotProduct.{inner};
ghost use Rattle.ring.specs.Element.{R, array};
ghost use Rattle.fold.specs.Statement.{part};
ghost use Rattle.bare.specs.Messages.{mixedΦ};
ghost use Rattle.bare.specs.Messages as messages;
ghost use Rattle.bare.specs.Known.BareFacts.{BareTurnFacts};
ghost use Rattle.bare_prover.specs.Known.Facts.{Parts};
ghost use Rattle.bare_prover.specs.Summands.{earlier_summand, crossed_summand};

use fold::Shape;
use ring::element::Element;
use ring::product::inner;

// <x_i, y_j>, of the parts of two lists.
fn part_product(shape: Shape, xs: &[i32], i: usize, ys: &[i32], j: usize) -> Element
    requires parts { Parts shape xs.now × (i < shape.r) }
    requires parts_2 { Parts shape ys.now × (j < shape.r) }
    ensures { result.coefficients ≡ array shape.d (inner (R shape.d) shape.n (part shape.d shape.n xs.now i)
        (part shape.d shape.n ys.now j)) }
{
    Element {
        coefficients: inner(shape.d, shape.n, xs, i * shape.n, ys, j * shape.n),
    }
}

// (<φ_j,s_i> + <φ_i,s_j>)c_j.
fn crossed_summand(
    shape: Shape,
    phi: &[i32],
    c: &[i32],
    witness: &[i32],
    i: usize,
    j: usize,
) -> Element
    requires parts { Parts shape phi.now × (i < shape.r) }
    requires parts_2 { Parts shape witness.now × (j < i) }
    requires d_in_bounds { i * shape.d ≤ length c.now }
    ensures { result.coefficients ≡ array shape.d (crossed_summand shape.d shape.n phi.now c.now witness.now i j) }
{
    let d = shape.d;
    let earlier = part_product(shape, phi, j, witness, i);
    let later = part_product(shape, phi, i, witness, j);
    let both = earlier.sum(d, later);
    let challenge = Element::from_slice(d, c, j);
    both.product(d, challenge)
}

// The mixed φ of turn i.
fn mixed_phi(shape: Shape, phi: &[i32], c: &[i32], witness: &[i32], i: usize) -> Element
    requires parts { Parts shape phi.now × (i < shape.r) }
    requires parts_2 { Parts shape witness.now }
    requires d_in_bounds { i * shape.d ≤ length c.now }
    ensures { result.coefficients ≡ array shape.d (mixedΦ shape.d shape.n (part shape.d shape.n phi.now) c.now
        witness.now i) }
{
    let mut acc = Element::additive_identity();
    for j in 0..i {
        acc = acc.sum(shape.d, crossed_summand(shape, phi, c, witness, i, j));
    }
    acc
}

// <s_i,s_j>c_j.
fn earlier_summand(shape: Shape, c: &[i32], witness: &[i32], i: usize, j: usize) -> Element
    requires parts { Parts shape witness.now × (i < shape.r) }
    requires j_lt_i { (j < i) × (i * shape.d ≤ length c.now) }
    ensures { result.coefficients ≡ array shape.d (earlier_summand shape.d shape.n c.now witness.now i j) }
{
    let product = part_product(shape, witness, i, witness, j);
    product.product(shape.d, Element::from_slice(shape.d, c, j))
}

// Half of the mixed z of turn i.
fn earlier_z(shape: Shape, c: &[i32], witness: &[i32], i: usize) -> Element
    requires parts { Parts shape witness.now × (i < shape.r) }
    requires d_in_bounds { i * shape.d ≤ length c.now }
    ensures { result.coefficients ≡ array shape.d (sum (R shape.d) i (earlier_summand shape.d shape.n c.now witness.now i)) }
{
    let mut acc = Element::additive_identity();
    for j in 0..i {
        acc = acc.sum(shape.d, earlier_summand(shape, c, witness, i, j));
    }
    acc
}

// The four elements of a turn, which is counted from 1 here.
pub fn write_turn(
    shape: Shape,
    turn: usize,
    phi: &[i32],
    c: &[i32],
    witness: &[i32],
    out: &mut [i32],
)
    requires { BareTurnFacts shape turn phi.now c.now witness.now out.old }
    ensures { out.new ≡ messages.turn shape.d shape.n (part shape.d shape.n phi.now) c.now witness.now (turn - 1) }
{
    let d = shape.d;
    let i = turn - 1;
    mixed_phi(shape, phi, c, witness, i).store(d, out, 0);
    part_product(shape, phi, i, witness, i).store(d, out, 1);
    let half = earlier_z(shape, c, witness, i);
    half.sum(d, half).store(d, out, 2);
    part_product(shape, witness, i, witness, i).store(d, out, 3);
}
