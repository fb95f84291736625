// The five second functions f''_k, by place: SPECIFICATION 4.3.
ghost use Rattle.std.specs.Prelude.{◌≡◌, ◌+◌, ◌*◌, ◌<◌};
ghost use Rattle.integers.specs.Lists.{tab};
ghost use Rattle.algebra.specs.Conjugation.{conjugate};
ghost use Rattle.residues.specs.Modulus.{Zq};
ghost use Rattle.ring.specs.Element.{R, lift, array};
ghost use Rattle.fold.specs.Sizes.{pairs, function_size};
ghost use Rattle.fold.specs.Entries.{term_entry, second_a};
ghost use Rattle.constraints.specs.Known.Facts.{TermFacts};
ghost use Rattle.constraints.specs.Aggregated.{second_rowΦ};

use fold::{Shape, counts};
use ring::element::Element;

// How many second functions there are.
pub const COUNT: usize = 5;

// Σ_l ψ_kl f'_l at place e.
fn term_entry(
    shape: Shape,
    l: usize,
    constant_terms: &[i32],
    psi: &[i32],
    k: usize,
    e: usize,
) -> Element
    requires term_facts { TermFacts shape.d shape.n shape.r l constant_terms.now psi.now }
    requires k_bound { (k < 5) × (e < function_size shape.n shape.r) }
    ensures { result.coefficients ≡ array shape.d (term_entry shape.d shape.n shape.r l constant_terms.now
        psi.now k e) }
{
    let d = shape.d;
    let step = counts::function_size(shape.n, shape.r) * d + 1;
    let mut sum = Element::additive_identity();
    for j in 0..l {
        let entry = Element::from_slice(d, &constant_terms[j * step..], e);
        sum = sum.sum(d, entry.scale(d, psi[k * l + j]));
    }
    sum
}

// The a of the five second functions at pair place e.
pub fn second_row_a(
    shape: Shape,
    l: usize,
    constant_terms: &[i32],
    psi: &[i32],
    e: usize,
) -> [[i32; 64]; 5]
    requires term_facts { TermFacts shape.d shape.n shape.r l constant_terms.now psi.now }
    requires e_bound { e < pairs shape.r }
    ensures { result ≡ tab 5 (λ k. array shape.d (second_a shape.d shape.n shape.r l constant_terms.now
        psi.now k e)) }
{
    let mut row = [[0i32; 64]; 5];
    for k in 0..COUNT {
        let Element { coefficients } = term_entry(shape, l, constant_terms, psi, k, e);
        row[k] = coefficients;
    }
    row
}

// The φ of f''_k at element e of the witness, from its projected part.
fn second_phi(
    shape: Shape,
    l: usize,
    constant_terms: &[i32],
    psi: &[i32],
    projected: Element,
    k: usize,
    e: usize,
) -> Element
    requires term_facts { TermFacts shape.d shape.n shape.r l constant_terms.now psi.now }
    requires k_bound { (k < 5) × (e < shape.r * shape.n) }
    ensures { result.coefficients ≡ array shape.d ((R shape.d).add
        (term_entry shape.d shape.n shape.r l constant_terms.now psi.now k (pairs shape.r + e))
        (conjugate Zq (lift shape.d projected.coefficients))) }
{
    let place = counts::pair_count(shape.r) + e;
    let own = term_entry(shape, l, constant_terms, psi, k, place);
    own.sum(shape.d, projected.conjugate(shape.d))
}

// The φ of the five second functions at element e of the witness, from the row of their projected parts.
pub fn second_row_phi(
    shape: Shape,
    l: usize,
    constant_terms: &[i32],
    psi: &[i32],
    projected: [[i32; 64]; 5],
    e: usize,
) -> [[i32; 64]; 5]
    requires term_facts { TermFacts shape.d shape.n shape.r l constant_terms.now psi.now }
    requires e_bound { e < shape.r * shape.n }
    ensures { result ≡ tab 5 (λ k. array shape.d (second_rowΦ shape.d shape.n shape.r l constant_terms.now
        psi.now projected k e)) }
{
    let mut row = [[0i32; 64]; 5];
    for k in 0..COUNT {
        let part = Element {
            coefficients: projected[k],
        };
        let Element { coefficients } = second_phi(shape, l, constant_terms, psi, part, k, e);
        row[k] = coefficients;
    }
    row
}
