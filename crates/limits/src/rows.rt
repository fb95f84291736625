// The tests of the rows of SPECIFICATION 7 on sizes, one by one, and that of one length.
ghost use Rattle.std.specs.Prelude.{◌≡◌, cond, ◌<◌, ◌≤◌, pos};
ghost use Rattle.fold.specs.Refusals as spec;

use fold::limits::{
    LEAST_BASE, MOST_BASE, MOST_BOUND, MOST_CHUNKS, MOST_COMMITMENT_RANK, MOST_CONSTRAINTS,
    MOST_DIGITS, MOST_PARTS, MOST_PROJECTIONS, MOST_RANK,
};

// Row 1.
pub fn degree(d: usize) -> bool
    ensures { result ≡ spec.degree (pos d) }
{
    (d == 2) | (d == 4) | (d == 8) | (d == 16) | (d == 32) | (d == 64)
}

// Row 2: n, r, K or L, w.
pub fn rank(n: usize) -> bool
    ensures { result ≡ spec.rank (pos n) }
{
    (1 <= n) & (n <= MOST_RANK)
}

pub fn parts(r: usize) -> bool
    ensures { result ≡ spec.parts (pos r) }
{
    (1 <= r) & (r <= MOST_PARTS)
}

pub fn constraint_count(k: usize) -> bool
    ensures { result ≡ spec.constraint_count (pos k) }
{
    k <= MOST_CONSTRAINTS
}

pub fn projection_count(w: usize) -> bool
    ensures { result ≡ spec.projection_count (pos w) }
{
    w <= MOST_PROJECTIONS
}

// Row 3: κ, κ1, κ2.
pub fn commitment_rank(kappa: usize) -> bool
    ensures { result ≡ spec.commitment_rank (pos kappa) }
{
    (1 <= kappa) & (kappa <= MOST_COMMITMENT_RANK)
}

// Row 4: a base, a number of digits.
pub fn base(b: usize) -> bool
    ensures { result ≡ spec.base (pos b) }
{
    (LEAST_BASE <= b) & (b <= MOST_BASE)
}

pub fn digit_count(t: usize) -> bool
    ensures { result ≡ spec.digit_count (pos t) }
{
    (2 <= t) & (t <= MOST_DIGITS)
}

// Row 5. Each count is tested alone first, so that tz·ν+μ never wraps.
pub fn chunk_counts(tz: usize, nu: usize, mu: usize) -> bool
    requires { (0 < tz) × (tz ≤ 2) }
    ensures { result ≡ spec.chunks tz (pos nu) (pos mu) }
{
    if MOST_CHUNKS < nu {
        return false;
    }
    if MOST_CHUNKS < mu {
        return false;
    }
    let together = tz * nu + mu;
    (1 <= nu) & (1 <= mu) & (together <= MOST_CHUNKS)
}

// Row 6: β² or β'².
pub fn length_bound(x: u64) -> bool
    ensures { result ≡ spec.length_bound (pos x) }
{
    x <= MOST_BOUND
}

// Row 7: the length of a slice.
pub fn sized(xs: &[i32], k: usize) -> bool
    ensures { result ≡ spec.sized xs.now k }
{
    xs.len() == k
}
