// SPECIFICATION 7.8 for the projection rows, for the lists that two calls share and for elements by value; 7.10 for challenges.
ghost use Rattle.std.specs.Prelude.{◌≡◌, [], ◌∷◌, ◌*◌, drop, length};
ghost use Rattle.residues.specs.Range.{all_within, coefficients, projection_entries};
ghost use Rattle.fold.specs.Refusals.{all_of, in_range, is_element};
ghost use Rattle.fold.specs.Refusals as table;

use residues::range::{all_between, are_coefficients, is_challenge};

// The projection rows, where `entries` says whether row 9 holds. Entries of -1, 0 and 1 are in coefficient range, so that the rows are
// looked at once where it does.
pub fn projections_in_range(projections: &[i32], entries: bool) -> bool
    requires { entries ≡ projection_entries projections.now }
    ensures { result ≡ coefficients projections.now }
{
    if entries {
        return true;
    }
    are_coefficients(projections)
}

// Both kinds of constraints and what is lent to aggregate them.
pub fn constraint_ranges(
    whole: &[i32],
    constant_terms: &[i32],
    projections: &[i32],
    entries: bool,
    psi: &[i32],
    omega: &[i32],
    alpha: &[i32],
    delta: &[i32],
) -> bool
    requires { entries ≡ projection_entries projections.now }
    ensures { result ≡ all_of (in_range (whole.now ∷ constant_terms.now ∷ projections.now ∷ psi.now
        ∷ omega.now ∷ alpha.now ∷ delta.now ∷ [])) }
{
    are_coefficients(whole)
        & are_coefficients(constant_terms)
        & projections_in_range(projections, entries)
        & are_coefficients(psi)
        & are_coefficients(omega)
        & are_coefficients(alpha)
        & are_coefficients(delta)
}

// The messages and the matrices.
pub fn message_ranges(
    u1: &[i32],
    p: &[i32],
    second_b: &[i32],
    u2: &[i32],
    a_matrix: &[i32],
    b_matrix: &[i32],
    c_matrix: &[i32],
    d_matrix: &[i32],
) -> bool
    ensures { result ≡ all_of (in_range (u1.now ∷ p.now ∷ second_b.now ∷ u2.now
        ∷ a_matrix.now ∷ b_matrix.now ∷ c_matrix.now ∷ d_matrix.now ∷ [])) }
{
    are_coefficients(u1)
        & are_coefficients(p)
        & are_coefficients(second_b)
        & are_coefficients(u2)
        & are_coefficients(a_matrix)
        & are_coefficients(b_matrix)
        & are_coefficients(c_matrix)
        & are_coefficients(d_matrix)
}

// The numbers of xs from d on are zero.
fn vanishes_from(d: usize, xs: &[i32]) -> bool
    ensures { result ≡ all_within 0 (drop d xs.now) }
{
    if xs.len() < d {
        return true;
    }
    all_between(0, 0, &xs[d..])
}

// Every number is in range, and those past d are zero.
pub fn is_element(d: usize, xs: &[i32]) -> bool
    ensures { result ≡ is_element d xs.now }
{
    are_coefficients(xs) & vanishes_from(d, xs)
}

// Row 10, for each of the r elements of c.
pub fn challenges(d: usize, r: usize, c: &[i32]) -> bool
    requires { length c.now ≡ r * d }
    ensures { result ≡ table.challenges d r c.now }
{
    let mut all = true;
    for i in 0..r {
        let at = i * d;
        let end = at + d;
        all &= is_challenge(&c[at..end]);
    }
    all
}
