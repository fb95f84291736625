// Check 8: the aggregated function's a and b against g and h. Its entries are formed as they are used.
ghost use Rattle.std.specs.Prelude.{◌≡◌, List, ℕ, ◌<◌, ◌≤◌, ℤ};
ghost use Rattle.algebra.specs.Sum.{sum};
ghost use Rattle.ring.specs.Element.{R, array};
ghost use Rattle.fold.specs.Sizes.{pairs};
ghost use Rattle.fold.specs.Messages.{aggregate, aggregate_constant};
ghost use Rattle.fold.specs.Opening.{block, garbage_of};
ghost use Rattle.fold.specs.Verdict.{check₈};
ghost use Rattle.fold.specs.Known.WorkFacts.{TermFacts, WholeFacts, RelationFacts};
ghost use Rattle.checks.specs.Known.Facts.{Holds, g_value, h_value};
ghost use Rattle.checks.specs.Mixed.{Garbage};
ghost use Rattle.checks.specs.Relation.{relation_summand};

use crate::indices::sum_of;
use crate::recomposed;
use constraints::aggregated;
use fold::counts::pair_count;
use fold::{ConstraintSizes, Sizes, places};
use ring::element::Element;

// The aggregate's a at pair number q, times g there.
fn relation_summand(
    sizes: Sizes,
    whole: &[i32],
    constant_terms: &[i32],
    psi: &[i32],
    alpha: &[i32],
    delta: &[i32],
    opening: &[i32],
    place: usize,
    q: usize,
) -> Element
    requires whole_facts { WholeFacts sizes.shape.d sizes.shape.n sizes.shape.r sizes.k whole.now alpha.now }
    requires term_facts { TermFacts sizes.shape.d sizes.shape.n sizes.shape.r sizes.l constant_terms.now psi.now }
    requires holds { Holds sizes.shape.d 5 delta.now }
    requires garbage { Garbage sizes.shape.d sizes.shape.r sizes.b2 sizes.t2 place opening.now }
    requires q_bound { q < pairs sizes.shape.r }
    ensures { result.coefficients ≡ array sizes.shape.d (relation_summand sizes whole.now constant_terms.now psi.now
        alpha.now delta.now opening.now place q) }
{
    let shape = sizes.shape;
    let d = shape.d;
    let constraint_sizes = ConstraintSizes {
        shape,
        k: sizes.k,
        l: sizes.l,
        w: sizes.w,
    };
    let aggregate_a = aggregated::aggregate_a(
        constraint_sizes,
        whole,
        constant_terms,
        psi,
        alpha,
        delta,
        q,
    );
    let g = recomposed::garbage_of(d, sizes.b2, sizes.t2, opening, place, q);
    aggregate_a.product(d, g)
}

// Σ a_ij g_ij.
fn relation_sum(
    sizes: Sizes,
    whole: &[i32],
    constant_terms: &[i32],
    psi: &[i32],
    alpha: &[i32],
    delta: &[i32],
    opening: &[i32],
    place: usize,
) -> Element
    requires whole_facts { WholeFacts sizes.shape.d sizes.shape.n sizes.shape.r sizes.k whole.now alpha.now }
    requires term_facts { TermFacts sizes.shape.d sizes.shape.n sizes.shape.r sizes.l constant_terms.now psi.now }
    requires holds { Holds sizes.shape.d 5 delta.now }
    requires garbage { Garbage sizes.shape.d sizes.shape.r sizes.b2 sizes.t2 place opening.now }
    ensures { result.coefficients ≡ array sizes.shape.d (sum (R sizes.shape.d) (pairs sizes.shape.r)
        (relation_summand sizes whole.now constant_terms.now psi.now alpha.now
        delta.now opening.now place)) }
{
    sum_of(sizes.shape.d, pair_count(sizes.shape.r), |q| {
        relation_summand(
            sizes,
            whole,
            constant_terms,
            psi,
            alpha,
            delta,
            opening,
            place,
            q,
        )
    })
}

// Σ h_ii, the digits of h from element `place` of the opening on.
fn diagonal_sum(d: usize, r: usize, b: usize, t: usize, opening: &[i32], place: usize) -> Element
    requires { Garbage d r b t place opening.now }
    ensures { result.coefficients ≡ array d (sum (R d) r (λ i. garbage_of d r b t (block d opening.now place) i i)) }
{
    let mut acc = Element::additive_identity();
    let mut q = 0;
    for i in 0..r {
        acc = acc.sum(d, recomposed::garbage_of(d, b, t, opening, place, q));
        q += r - i;
    }
    acc
}

// Check 8: Σ a_ij g_ij + Σ h_ii is the aggregate's b.
pub fn relation_holds(
    tz: usize,
    sizes: Sizes,
    whole: &[i32],
    constant_terms: &[i32],
    psi: &[i32],
    alpha: &[i32],
    delta: &[i32],
    second_b: &[i32],
    opening: &[i32],
) -> bool
    requires tz_bound { tz ≤ 2 }
    requires relation_facts { RelationFacts tz sizes whole.now constant_terms.now psi.now alpha.now delta.now second_b.now opening.now }
    ensures { (w : ℕ) (projections ω : List ℤ) → result ≡ check₈ sizes.shape.d sizes.shape.r
        (aggregate sizes.shape.d sizes.shape.n sizes.shape.r sizes.k sizes.l w whole.now constant_terms.now projections
        psi.now ω alpha.now delta.now).a
        (aggregate_constant sizes.shape.d sizes.shape.n sizes.shape.r sizes.k whole.now alpha.now
        delta.now second_b.now) (g_value tz sizes opening.now) (h_value tz sizes opening.now) }
{
    let d = sizes.shape.d;
    let g_start = places::g_place(tz, sizes);
    let g_sum = relation_sum(
        sizes,
        whole,
        constant_terms,
        psi,
        alpha,
        delta,
        opening,
        g_start,
    );
    let h_start = places::h_place(tz, sizes);
    let h_sum = diagonal_sum(d, sizes.shape.r, sizes.b1, sizes.t1, opening, h_start);
    let left = g_sum.sum(d, h_sum);
    let right = aggregated::aggregate_constant(sizes.shape, sizes.k, whole, alpha, delta, second_b);
    left.equals(d, right)
}
