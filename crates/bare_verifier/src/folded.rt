// Checks 3 and 4: z against t, and against the garbage of z.
ghost use Rattle.std.specs.Prelude.{◌≡◌, ◌<◌};
ghost use Rattle.algebra.specs.Sum.{sum};
ghost use Rattle.ring.specs.Element.{R, el, array, same};
ghost use Rattle.fold.specs.Messages.{times};
ghost use Rattle.fold.specs.Verdict.{check₅};
ghost use Rattle.bare.specs.Opening.{t_at, z_at, mixed_zat, own_zat};
ghost use Rattle.bare.specs.Verdict.{garbage_of_z};
ghost use Rattle.bare.specs.Known.BareFacts.{BareOpeningFacts, BareFoldedFacts};

use crate::turns::turn_sum;
use bare::BareSizes;
use bare::places::z_place;
use ring::element::Element;
use ring::product::inner;

// c_i times row k of t_i.
fn folded_summand(sizes: BareSizes, c: &[i32], opening: &[i32], i: usize, k: usize) -> Element
    requires bare_opening_facts { BareOpeningFacts sizes c.now opening.now }
    requires i_lt_r { (i < sizes.shape.r) × (k < sizes.kappa) }
    ensures { result.coefficients ≡ array sizes.shape.d ((R sizes.shape.d).mul (el sizes.shape.d c.now i)
        (t_at sizes.shape.d sizes.shape.n sizes.shape.r sizes.kappa opening.now i k)) }
{
    let d = sizes.shape.d;
    let place = i * sizes.kappa + k;
    let t = Element::from_slice(d, opening, place);
    let challenge = Element::from_slice(d, c, i);
    challenge.product(d, t)
}

// Row k of Σ c_i t_i.
fn folded_row(sizes: BareSizes, c: &[i32], opening: &[i32], k: usize) -> Element
    requires bare_opening_facts { BareOpeningFacts sizes c.now opening.now }
    requires k_lt_kappa { k < sizes.kappa }
    ensures { result.coefficients ≡ array sizes.shape.d (sum (R sizes.shape.d) sizes.shape.r
        (λ i. (R sizes.shape.d).mul (el sizes.shape.d c.now i)
        (t_at sizes.shape.d sizes.shape.n sizes.shape.r sizes.kappa opening.now i k))) }
{
    let d = sizes.shape.d;
    let mut acc = Element::additive_identity();
    for i in 0..sizes.shape.r {
        acc = acc.sum(d, folded_summand(sizes, c, opening, i, k));
    }
    acc
}

// Row k of A z is that of Σ c_i t_i.
fn row_holds(sizes: BareSizes, a_matrix: &[i32], c: &[i32], opening: &[i32], k: usize) -> bool
    requires bare_folded_facts { BareFoldedFacts sizes a_matrix.now c.now opening.now }
    requires k_lt_kappa { k < sizes.kappa }
    ensures { result ≡ same sizes.shape.d (times sizes.shape.d sizes.shape.n a_matrix.now k
        (z_at sizes.shape.d sizes.shape.n sizes.shape.r sizes.kappa opening.now))
        (sum (R sizes.shape.d) sizes.shape.r (λ i. (R sizes.shape.d).mul (el sizes.shape.d c.now i)
        (t_at sizes.shape.d sizes.shape.n sizes.shape.r sizes.kappa opening.now i k))) }
{
    let d = sizes.shape.d;
    let n = sizes.shape.n;
    let start = z_place(sizes.shape.r, sizes.kappa);
    let row = k * n;
    let left = Element {
        coefficients: inner(d, n, a_matrix, row, opening, start),
    };
    let right = folded_row(sizes, c, opening, k);
    left.equals(d, right)
}

// Check 3: A z = Σ c_i t_i, row by row.
pub fn amortized(sizes: BareSizes, a_matrix: &[i32], c: &[i32], opening: &[i32]) -> bool
    requires { BareFoldedFacts sizes a_matrix.now c.now opening.now }
    ensures { result ≡ check₅ sizes.shape.d sizes.shape.n sizes.shape.r sizes.kappa a_matrix.now c.now
        (z_at sizes.shape.d sizes.shape.n sizes.shape.r sizes.kappa opening.now)
        (t_at sizes.shape.d sizes.shape.n sizes.shape.r sizes.kappa opening.now) }
{
    let mut all = true;
    for k in 0..sizes.kappa {
        all &= row_holds(sizes, a_matrix, c, opening, k);
    }
    all
}

// Check 4: <z,z> is the sum over all turns of (mixed z)·c_i + (own z)·c_i².
pub fn z_garbage(sizes: BareSizes, c: &[i32], opening: &[i32]) -> bool
    requires { BareOpeningFacts sizes c.now opening.now }
    ensures { result ≡ garbage_of_z sizes.shape.d sizes.shape.n sizes.shape.r c.now
        (z_at sizes.shape.d sizes.shape.n sizes.shape.r sizes.kappa opening.now)
        (mixed_zat sizes.shape.d sizes.shape.n sizes.shape.r sizes.kappa opening.now)
        (own_zat sizes.shape.d sizes.shape.n sizes.shape.r sizes.kappa opening.now) }
{
    let d = sizes.shape.d;
    let n = sizes.shape.n;
    let start = z_place(sizes.shape.r, sizes.kappa);
    let left = Element {
        coefficients: inner(d, n, opening, start, opening, start),
    };
    let right = turn_sum(sizes, c, opening, 2);
    left.equals(d, right)
}
