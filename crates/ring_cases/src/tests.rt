// The operations whose result is yes or no.
ghost use Rattle.std.specs.Prelude.{◌≡◌, length};
ghost use Rattle.ring_cases.specs.Results.{list_test, list_at, norm_at, two_norms_at, test_of};

use cases::lists::past_numbers;
use cases::numbers::{natural, size, wide_at};
use residues::{length, range};

// The n numbers from a place on.
fn part(xs: &[i32], place: usize, n: usize) -> &[i32]
    ensures { result.now ≡ list_at n place xs.now }
{
    let rest = past_numbers(xs, place);
    &rest[..n.min(rest.len())]
}

fn list_test(operation: usize, xs: &[i32]) -> bool
    ensures { result ≡ list_test operation xs.now }
{
    match operation {
        13 => range::are_coefficients(xs),
        14 => range::are_projection_entries(xs),
        _ => range::is_challenge(xs),
    }
}

// Operation 16: `bound n x[n]`.
fn norm(xs: &[i32], wides: &[i64]) -> bool
    ensures { result ≡ norm_at xs.now wides.now }
{
    let bound = natural(wide_at(wides, 1));
    let n = size(xs, 2, 64);
    length::compare(bound, part(xs, 3, n)).is_some()
}

// Operation 17: `bound n m x[n] y[m]`.
fn two_norms(xs: &[i32], wides: &[i64]) -> bool
    ensures { result ≡ two_norms_at xs.now wides.now }
{
    let bound = natural(wide_at(wides, 1));
    let n = size(xs, 2, 64);
    let m = size(xs, 3, 64);
    let margin = length::compare(bound, part(xs, 4, n));
    length::lessen(margin, part(xs, 4 + n, m)).is_some()
}

// Operations 13, 14 and 15 besides: `n x[n]`.
pub fn test_of(operation: usize, xs: &[i32], wides: &[i64]) -> bool
    ensures { result ≡ test_of operation xs.now wides.now }
{
    match operation {
        16 => norm(xs, wides),
        17 => two_norms(xs, wides),
        _ => list_test(operation, part(xs, 2, size(xs, 1, 64))),
    }
}
