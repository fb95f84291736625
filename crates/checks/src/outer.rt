// Checks 3 and 4: the outer commitments u1 and u2, of an opening whose z has tz digits.
ghost use Rattle.std.specs.Prelude.{◌≡◌, ◌+◌, ◌*◌, ◌<◌, ◌≤◌, length};
ghost use Rattle.ring.specs.Element.{Degree, el, array, same};
ghost use Rattle.fold.specs.Messages.{times, outer₁, outer₂};
ghost use Rattle.fold.specs.Opening.{block};
ghost use Rattle.fold.specs.Verdict.{check₃, check₄};
ghost use Rattle.fold.specs.Known.WorkFacts.{FirstOuterFacts, SecondOuterFacts};
ghost use Rattle.checks.specs.Known.Facts.{t_block_of, g_block_of, h_block_of};

use crate::indices::every;
use fold::counts::{garbage_size, t_size};
use fold::{Sizes, places};
use ring::element::Element;
use ring::product;

// Row k of a matrix of m columns, times the m elements of xs from element `place` on.
pub fn row_times(d: usize, m: usize, matrix: &[i32], k: usize, xs: &[i32], place: usize) -> Element
    requires degree { Degree d }
    requires m_bound { m ≤ 4096 }
    requires d_in_bounds { ((k * m + m) * d ≤ length matrix.now) × ((place + m) * d ≤ length xs.now) }
    ensures { result.coefficients ≡ array d (times d m matrix.now k (block d xs.now place)) }
{
    Element {
        coefficients: product::inner(d, m, matrix, k * m, xs, place),
    }
}

// Row k of u1 is B·(t digits) + C·(g digits).
fn first_row(
    tz: usize,
    sizes: Sizes,
    b_matrix: &[i32],
    c_matrix: &[i32],
    u1: &[i32],
    opening: &[i32],
    k: usize,
) -> bool
    requires tz_bound { tz ≤ 2 }
    requires first_outer_facts { FirstOuterFacts tz sizes b_matrix.now c_matrix.now u1.now opening.now }
    requires k_lt_kappa1 { k < sizes.kappa1 }
    ensures { result ≡ same sizes.shape.d (el sizes.shape.d u1.now k) (outer₁ sizes.shape.d sizes.shape.r sizes.kappa sizes.t1
        sizes.t2 b_matrix.now c_matrix.now k (t_block_of tz sizes opening.now)
        (g_block_of tz sizes opening.now)) }
{
    let d = sizes.shape.d;
    let t_count = t_size(sizes.shape.r, sizes.kappa, sizes.t1);
    let t_start = places::t_place(tz, sizes);
    let t_part = row_times(d, t_count, b_matrix, k, opening, t_start);
    let g_count = garbage_size(sizes.shape.r, sizes.t2);
    let g_start = places::g_place(tz, sizes);
    let g_part = row_times(d, g_count, c_matrix, k, opening, g_start);
    Element::from_slice(d, u1, k).equals(d, t_part.sum(d, g_part))
}

// Check 3: every row of u1.
pub fn first_outer(
    tz: usize,
    sizes: Sizes,
    b_matrix: &[i32],
    c_matrix: &[i32],
    u1: &[i32],
    opening: &[i32],
) -> bool
    requires tz_bound { tz ≤ 2 }
    requires first_outer_facts { FirstOuterFacts tz sizes b_matrix.now c_matrix.now u1.now opening.now }
    ensures { result ≡ check₃ sizes.shape.d sizes.shape.r sizes.kappa sizes.kappa1 sizes.t1 sizes.t2 b_matrix.now
        c_matrix.now u1.now (t_block_of tz sizes opening.now) (g_block_of tz sizes opening.now) }
{
    every(
        sizes.kappa1,
        |k| first_row(tz, sizes, b_matrix, c_matrix, u1, opening, k),
    )
}

// Row k of u2 is D·(h digits).
fn second_row(
    tz: usize,
    sizes: Sizes,
    d_matrix: &[i32],
    u2: &[i32],
    opening: &[i32],
    k: usize,
) -> bool
    requires tz_bound { tz ≤ 2 }
    requires second_outer_facts { SecondOuterFacts tz sizes d_matrix.now u2.now opening.now }
    requires k_lt_kappa2 { k < sizes.kappa2 }
    ensures { result ≡ same sizes.shape.d (el sizes.shape.d u2.now k) (outer₂ sizes.shape.d sizes.shape.r sizes.t1
        d_matrix.now k (h_block_of tz sizes opening.now)) }
{
    let d = sizes.shape.d;
    let count = garbage_size(sizes.shape.r, sizes.t1);
    let start = places::h_place(tz, sizes);
    let row = row_times(d, count, d_matrix, k, opening, start);
    Element::from_slice(d, u2, k).equals(d, row)
}

// Check 4: every row of u2.
pub fn second_outer(tz: usize, sizes: Sizes, d_matrix: &[i32], u2: &[i32], opening: &[i32]) -> bool
    requires tz_bound { tz ≤ 2 }
    requires second_outer_facts { SecondOuterFacts tz sizes d_matrix.now u2.now opening.now }
    ensures { result ≡ check₄ sizes.shape.d sizes.shape.r sizes.kappa2 sizes.t1 d_matrix.now u2.now
        (h_block_of tz sizes opening.now) }
{
    every(
        sizes.kappa2,
        |k| second_row(tz, sizes, d_matrix, u2, opening, k),
    )
}
