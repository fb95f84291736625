// Message 5: "Given c_1..c_r, z = Σ c_i s_i in two digits to base b." Here in tz digits.
ghost use Rattle.std.specs.Prelude.{◌≡◌, ◌+◌, ◌-◌, ◌*◌, ◌<◌, ◌≤◌, length};
ghost use Rattle.integers.specs.Over.{over};
ghost use Rattle.ring.specs.Element.{Degree, array};
ghost use Rattle.fold.specs.Messages.{elements, z, z_digits};
ghost use Rattle.fold.specs.Known.CallFacts.{AmortizeFacts};

use fold::Shape;
use residues::digits::split_digits;
use ring::element::Element;

// Element k of z: the sum over i of c_i and element k of part i.
fn folded_element(d: usize, n: usize, r: usize, c: &[i32], witness: &[i32], k: usize) -> Element
    requires degree { Degree d }
    requires k_lt_n { (k < n) × (r * d ≤ length c.now) × (r * n * d ≤ length witness.now) }
    ensures { result.coefficients ≡ array d (z d n r c.now witness.now k) }
{
    let mut sum = Element::additive_identity();
    for i in 0..r {
        let challenge = Element::from_slice(d, c, i);
        let element = Element::from_slice(d, witness, i * n + k);
        sum = sum.sum(d, challenge.product(d, element));
    }
    sum
}

// The elements of z, written from element `at` on.
fn write_folded(
    d: usize,
    n: usize,
    r: usize,
    c: &[i32],
    witness: &[i32],
    out: &mut [i32],
    at: usize,
)
    requires degree { Degree d }
    requires d_in_bounds { (r * d ≤ length c.now) × (r * n * d ≤ length witness.now) × ((at + n) * d ≤ length out.old) }
    ensures { out.new ≡ over out.old (at * d) (elements d n (z d n r c.now witness.now)) }
{
    for k in 0..n {
        folded_element(d, n, r, c, witness, k).store(d, out, at + k);
    }
}

// z in tz digits to base b, the lowest first. The elements stand in the last place before they are split; one digit is z itself.
pub fn write_z(tz: usize, shape: Shape, b: usize, c: &[i32], witness: &[i32], out: &mut [i32])
    requires tz_nonzero { (0 < tz) × (tz ≤ 2) }
    requires amortize_facts { AmortizeFacts shape tz b c.now witness.now out.old }
    ensures { out.new ≡ z_digits shape.d shape.n shape.r tz b c.now witness.now }
{
    let Shape { d, n, r } = shape;
    let last = (tz - 1) * n;
    write_folded(d, n, r, c, witness, out, last);
    split_digits(b, tz, n * d, out);
}
