// How many numbers each part of a sheet has, and where its lines end.
ghost use Rattle.std.specs.Prelude.{◌≡◌, ◌+◌, ◌*◌, ◌≤◌, ◌<◌};
ghost use Rattle.fold.specs.Arguments.{VerifySized};
ghost use Rattle.fold.specs.Limits.{most_constraints};
ghost use Rattle.fields.specs.Sections.{Sectioned, matrix_count, whole_count, row_count, last_count, term_size};
ghost use Rattle.fields.specs.Sections.{total, projections_from, challenges_from, ends_element, ends_term, ends_line};

use fold::Sizes;
use fold::counts::{Z_DIGITS, function_size, garbage_size, opening_size, t_size};

// The bytes of a header: eighteen fields and a line feed.
pub const HEADER_BYTES: usize = 289;

// Where lines end: `head` numbers on lines of d, then `terms` numbers of constant-term constraints of `period` numbers each (lines of
// d, and one of a single number), `middle` numbers on lines of d, `ones` on lines of one, and the rest on lines of d.
#[derive(Clone, Copy)]
pub struct Sections {
    pub d: usize,
    pub head: usize,
    pub period: usize,
    pub terms: usize,
    pub middle: usize,
    pub ones: usize,
}

// Elements of A, B, C and D.
pub fn matrix_count(s: Sizes) -> usize
    requires { VerifySized s }
    ensures { (result ≡ matrix_count s) × (result ≤ 27648) }
{
    let ts = t_size(s.shape.r, s.kappa, s.t1);
    let gs = garbage_size(s.shape.r, s.t2);
    let hs = garbage_size(s.shape.r, s.t1);
    s.kappa * s.shape.n + (s.kappa1 * ts + (s.kappa1 * gs + s.kappa2 * hs))
}

// Elements of the whole constraints.
pub fn whole_count(s: Sizes) -> usize
    requires { VerifySized s }
    ensures { (result ≡ whole_count s) × (result ≤ most_constraints * 4233) }
{
    s.k * (function_size(s.shape.n, s.shape.r) + 1)
}

// Elements of u1 and the projection rows.
pub fn row_count(s: Sizes) -> usize
    requires { VerifySized s }
    ensures { (result ≡ row_count s) × (result ≤ 1048584) }
{
    s.kappa1 + s.w * (s.shape.r * s.shape.n)
}

// Elements of b'', α, δ, u2, c and the opening.
pub fn last_count(s: Sizes) -> usize
    requires { VerifySized s }
    ensures { (result ≡ last_count s) × (result ≤ most_constraints + 3746) }
{
    let opening = opening_size(Z_DIGITS, s.shape.n, s.shape.r, s.kappa, s.t1, s.t2);
    5 + (s.k + (5 + (s.kappa2 + (s.shape.r + opening))))
}

// Numbers before the constant-term constraints.
fn head_numbers(s: Sizes) -> usize
    requires { VerifySized s }
    ensures { (result ≡ (matrix_count s + whole_count s) * s.shape.d) × (result ≤ (27648 + most_constraints * 4233) * 64) }
{
    (matrix_count(s) + whole_count(s)) * s.shape.d
}

// Numbers of one constant-term constraint.
fn term_size(s: Sizes) -> usize
    requires { VerifySized s }
    ensures { (result ≡ term_size s) × (result ≤ 270849) }
{
    function_size(s.shape.n, s.shape.r) * s.shape.d + 1
}

// Numbers of u1 and the projection rows.
fn middle_numbers(s: Sizes) -> usize
    requires { VerifySized s }
    ensures { (result ≡ row_count s * s.shape.d) × (result ≤ 67109376) }
{
    row_count(s) * s.shape.d
}

// The lines of the sheet after its header.
pub fn sections_of(s: Sizes) -> Sections
    requires { VerifySized s }
    ensures { Sectioned s result }
{
    let period = term_size(s);
    Sections {
        d: s.shape.d,
        head: head_numbers(s),
        period,
        terms: s.l * period,
        middle: middle_numbers(s),
        ones: s.w + (5 * s.l + 5 * s.w),
    }
}

// The numbers after the header.
pub fn total_numbers(s: Sizes) -> usize
    requires { VerifySized s }
    ensures { result ≡ total s }
{
    let q = sections_of(s);
    q.head + (q.terms + (q.middle + (q.ones + last_count(s) * s.shape.d)))
}

// The numbers before the projection rows.
pub fn projections_from(s: Sizes) -> usize
    requires { VerifySized s }
    ensures { result ≡ projections_from s }
{
    let q = sections_of(s);
    q.head + (q.terms + s.kappa1 * s.shape.d)
}

// The numbers before the challenges c.
pub fn challenges_from(s: Sizes) -> usize
    requires { VerifySized s }
    ensures { result ≡ challenges_from s }
{
    let q = sections_of(s);
    let before = (5 + (s.k + (5 + s.kappa2))) * s.shape.d;
    q.head + (q.terms + (q.middle + (q.ones + before)))
}

// Number i of lines of d numbers is the last of its line.
fn ends_element(d: usize, i: usize) -> bool
    requires { 0 < d }
    ensures { result ≡ ends_element d i }
{
    i % d + 1 == d
}

// Number i of constant-term constraints is the last of its line.
fn ends_term(d: usize, period: usize, i: usize) -> bool
    requires { (0 < d) × (0 < period) }
    ensures { result ≡ ends_term d period i }
{
    let p = i % period;
    p + 1 == period || ends_element(d, p)
}

// Number i of the sections is the last of its line.
pub fn ends_line(s: Sections, i: usize) -> bool
    requires { (0 < s.d) × (0 < s.period) }
    ensures { result ≡ ends_line s i }
{
    if i < s.head {
        return ends_element(s.d, i);
    }
    let j = i - s.head;
    if j < s.terms {
        return ends_term(s.d, s.period, j);
    }
    let k = j - s.terms;
    if k < s.middle {
        return ends_element(s.d, k);
    }
    let m = k - s.middle;
    if m < s.ones {
        return true;
    }
    ends_element(s.d, m - s.ones)
}
