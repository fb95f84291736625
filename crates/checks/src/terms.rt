// Check 2: the constant terms of b''.
ghost use Rattle.std.specs.Prelude.{◌≡◌, ◌+◌, ◌*◌, ◌<◌, ◌≤◌, length};
ghost use Rattle.algebra.specs.Sum.{sum};
ghost use Rattle.residues.specs.Modulus.{Zq, cent};
ghost use Rattle.fold.specs.Verdict.{check₂};
ghost use Rattle.fold.specs.Known.WorkFacts.{ConstantTermFacts};
ghost use Rattle.checks.specs.ConstantTerms.{weighted, term_holds};

use crate::indices::every;
use fold::ConstraintSizes;
use fold::counts::function_size;
use residues::modulus;
use ring::element::Element;

// The sum, modulo q, of `count` weights from place `at` on times the numbers of xs at `first`, `first + step`, ..
fn weighted_sum(
    count: usize,
    weights: &[i32],
    at: usize,
    xs: &[i32],
    first: usize,
    step: usize,
) -> i32
    requires { (at + count ≤ length weights.now) × (first + count * step < length xs.now + step) }
    ensures { result ≡ cent (sum Zq count (weighted weights.now at xs.now first step)) }
{
    let mut acc = 0;
    for l in 0..count {
        let product = modulus::multiply(weights[at + l], xs[first + l * step]);
        acc = modulus::add(acc, product);
    }
    acc
}

// The constant term of b''_k is Σ ψ b' + Σ ω p.
fn constant_term_holds(
    sizes: ConstraintSizes,
    constant_terms: &[i32],
    psi: &[i32],
    omega: &[i32],
    p: &[i32],
    second_b: &[i32],
    k: usize,
) -> bool
    requires constant_term_facts { ConstantTermFacts sizes.shape.d sizes.shape.n sizes.shape.r sizes.l sizes.w
        constant_terms.now psi.now omega.now p.now second_b.now }
    requires k_bound { k < 5 }
    ensures { result ≡ term_holds sizes.shape.d sizes.shape.n sizes.shape.r sizes.l sizes.w constant_terms.now psi.now
        omega.now p.now second_b.now k }
{
    let d = sizes.shape.d;
    let last = function_size(sizes.shape.n, sizes.shape.r) * d;
    let terms = weighted_sum(sizes.l, psi, k * sizes.l, constant_terms, last, last + 1);
    let projected = weighted_sum(sizes.w, omega, k * sizes.w, p, 0, 1);
    let expected = modulus::add(terms, projected);
    let given = Element::from_slice(d, second_b, k).constant_term();
    modulus::residue(given) == modulus::residue(expected)
}

// Check 2: all five.
pub fn constant_terms_hold(
    sizes: ConstraintSizes,
    constant_terms: &[i32],
    psi: &[i32],
    omega: &[i32],
    p: &[i32],
    second_b: &[i32],
) -> bool
    requires { ConstantTermFacts sizes.shape.d sizes.shape.n sizes.shape.r sizes.l sizes.w constant_terms.now psi.now omega.now p.now second_b.now }
    ensures { result ≡ check₂ sizes.shape.d sizes.shape.n sizes.shape.r sizes.l sizes.w constant_terms.now psi.now
        omega.now p.now second_b.now }
{
    every(
        5,
        |k| constant_term_holds(sizes, constant_terms, psi, omega, p, second_b, k),
    )
}
