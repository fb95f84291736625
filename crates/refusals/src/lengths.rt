// SPECIFICATION 7.7 for each call: the lengths that its sizes give. The sizes have passed rows 1 to 4.
ghost use Rattle.std.specs.Prelude.{◌≡◌, ◌*◌, ◌≤◌};
ghost use Rattle.fold.specs.Refusals.{all_of};
ghost use Rattle.fold.specs.Refusals as table;
ghost use Rattle.fold.specs.Sizes.{opening_size};
ghost use Rattle.fold.specs.Known.Facts.{Shaped};
ghost use Rattle.fold.specs.Known.CallLimits.{ProjectLimits, AmortizeLimits};
ghost use Rattle.fold.specs.Arguments.{CommitSized, GarbageSized, VerifySized};
ghost use Rattle.refusals.specs.Known.ConstraintSized.{AggregateSized, ConstraintSized};
ghost use Rattle.refusals.specs.Lengths as spec;
ghost use Rattle.fold.specs.Limits.{most_commitment_rank, most_constraints, most_digits, most_parts, most_projections, most_rank};

use fold::counts::{garbage_size, opening_size, t_size};
use fold::{CommitSizes, ConstraintSizes, GarbageSizes, Shape, Sizes};
use limits::rows::sized;
use limits::sizes::{
    constant_terms_length, flat_length, list_length, projection_length, whole_length,
};

// Rows of elements.
pub fn matrix_fits(xs: &[i32], rows: usize, columns: usize, d: usize) -> bool
    requires { (rows ≤ 256) × (columns ≤ 8192) × (d ≤ 64) }
    ensures { result ≡ table.sized xs.now (rows * columns * d) }
{
    let length = flat_length(rows, columns, d);
    sized(xs, length)
}

// A list of elements.
pub fn list_fits(xs: &[i32], elements: usize, d: usize) -> bool
    requires { (elements ≤ 8192) × (d ≤ 64) }
    ensures { result ≡ table.sized xs.now (elements * d) }
{
    let length = list_length(elements, d);
    sized(xs, length)
}

// Five numbers for each of `count` functions.
pub fn five_fit(xs: &[i32], count: usize) -> bool
    requires { count ≤ 256 }
    ensures { result ≡ table.sized xs.now (5 * count) }
{
    let length = 5 * count;
    sized(xs, length)
}

pub fn whole_fits(shape: Shape, k: usize, whole: &[i32]) -> bool
    requires { Shaped shape.d shape.n shape.r × (k ≤ most_constraints) }
    ensures { result ≡ table.sized whole.now (table.whole_length shape.d shape.n shape.r k) }
{
    let length = whole_length(shape.d, shape.n, shape.r, k);
    sized(whole, length)
}

pub fn constant_terms_fit(shape: Shape, l: usize, constant_terms: &[i32]) -> bool
    requires { Shaped shape.d shape.n shape.r × (l ≤ most_constraints) }
    ensures { result ≡ table.sized constant_terms.now (table.constant_terms_length shape.d shape.n shape.r l) }
{
    let length = constant_terms_length(shape.d, shape.n, shape.r, l);
    sized(constant_terms, length)
}

pub fn projections_fit(shape: Shape, w: usize, projections: &[i32]) -> bool
    requires { Shaped shape.d shape.n shape.r × (w ≤ most_projections) }
    ensures { result ≡ table.sized projections.now (table.projection_length shape.d shape.n shape.r w) }
{
    let length = projection_length(shape.d, shape.n, shape.r, w);
    sized(projections, length)
}

// The digits of z, tz of them, of t, g and h.
pub fn opening_fits(
    tz: usize,
    d: usize,
    n: usize,
    r: usize,
    kappa: usize,
    t1: usize,
    t2: usize,
    opening: &[i32],
) -> bool
    requires { (tz ≤ 2) × (d ≤ 64) × (n ≤ most_rank) × (r ≤ most_parts) × (kappa ≤ most_commitment_rank) × (t1 ≤ most_digits) × (t2 ≤ most_digits) }
    ensures { result ≡ table.sized opening.now (opening_size tz n r kappa t1 t2 * d) }
{
    let elements = opening_size(tz, n, r, kappa, t1, t2);
    list_fits(opening, elements, d)
}

pub fn commit_lengths(
    sizes: CommitSizes,
    a_matrix: &[i32],
    b_matrix: &[i32],
    c_matrix: &[i32],
    witness: &[i32],
    t: &[i32],
    g: &[i32],
    u1: &[i32],
) -> bool
    requires { CommitSized sizes }
    ensures { result ≡ all_of (spec.commit_lengths_of sizes a_matrix.now b_matrix.now c_matrix.now witness.now
        t.now g.now u1.now) }
{
    let t_elements = t_size(sizes.shape.r, sizes.kappa, sizes.t1);
    let g_elements = garbage_size(sizes.shape.r, sizes.t2);
    matrix_fits(a_matrix, sizes.kappa, sizes.shape.n, sizes.shape.d)
        & matrix_fits(b_matrix, sizes.kappa1, t_elements, sizes.shape.d)
        & matrix_fits(c_matrix, sizes.kappa1, g_elements, sizes.shape.d)
        & matrix_fits(witness, sizes.shape.r, sizes.shape.n, sizes.shape.d)
        & list_fits(t, t_elements, sizes.shape.d)
        & list_fits(g, g_elements, sizes.shape.d)
        & list_fits(u1, sizes.kappa1, sizes.shape.d)
}

pub fn project_lengths(
    shape: Shape,
    w: usize,
    projections: &[i32],
    witness: &[i32],
    p: &[i32],
) -> bool
    requires { ProjectLimits shape.d shape.n shape.r w }
    ensures { result ≡ all_of (table.project_lengths shape.d shape.n shape.r w projections.now witness.now
        p.now) }
{
    projections_fit(shape, w, projections)
        & matrix_fits(witness, shape.r, shape.n, shape.d)
        & sized(p, w)
}

// Message 3, which has no whole constraints: `sizes.k` is not looked at.
pub fn aggregate_lengths(
    sizes: ConstraintSizes,
    constant_terms: &[i32],
    projections: &[i32],
    psi: &[i32],
    omega: &[i32],
    witness: &[i32],
    second_b: &[i32],
) -> bool
    requires { AggregateSized sizes }
    ensures { result ≡ all_of (spec.aggregate_lengths_of sizes constant_terms.now projections.now psi.now omega.now
        witness.now second_b.now) }
{
    let shape = sizes.shape;
    constant_terms_fit(shape, sizes.l, constant_terms)
        & projections_fit(shape, sizes.w, projections)
        & five_fit(psi, sizes.l)
        & five_fit(omega, sizes.w)
        & matrix_fits(witness, shape.r, shape.n, shape.d)
        & five_fit(second_b, shape.d)
}

// Both kinds of constraints and what is lent to aggregate them.
pub fn constraint_lengths(
    sizes: ConstraintSizes,
    whole: &[i32],
    constant_terms: &[i32],
    projections: &[i32],
    psi: &[i32],
    omega: &[i32],
    alpha: &[i32],
    delta: &[i32],
) -> bool
    requires { ConstraintSized sizes }
    ensures { result ≡ all_of (spec.constraint_lengths_of sizes whole.now constant_terms.now projections.now
        psi.now omega.now alpha.now delta.now) }
{
    let shape = sizes.shape;
    whole_fits(shape, sizes.k, whole)
        & constant_terms_fit(shape, sizes.l, constant_terms)
        & projections_fit(shape, sizes.w, projections)
        & five_fit(psi, sizes.l)
        & five_fit(omega, sizes.w)
        & list_fits(alpha, sizes.k, shape.d)
        & five_fit(delta, shape.d)
}

// The other lists of message 4.
pub fn garbage_lengths(
    sizes: GarbageSizes,
    d_matrix: &[i32],
    witness: &[i32],
    h: &[i32],
    u2: &[i32],
) -> bool
    requires { GarbageSized sizes }
    ensures { result ≡ all_of (spec.garbage_lengths_of sizes d_matrix.now witness.now h.now
        u2.now) }
{
    let elements = garbage_size(sizes.shape.r, sizes.t1);
    matrix_fits(d_matrix, sizes.kappa2, elements, sizes.shape.d)
        & matrix_fits(witness, sizes.shape.r, sizes.shape.n, sizes.shape.d)
        & list_fits(h, elements, sizes.shape.d)
        & list_fits(u2, sizes.kappa2, sizes.shape.d)
}

pub fn amortize_lengths(
    tz: usize,
    shape: Shape,
    b: usize,
    c: &[i32],
    witness: &[i32],
    z: &[i32],
) -> bool
    requires tz_bound { tz ≤ 2 }
    requires amortize_limits { AmortizeLimits shape.d shape.n shape.r b }
    ensures { result ≡ all_of (table.amortize_lengths shape.d shape.n shape.r tz c.now witness.now
        z.now) }
{
    list_fits(c, shape.r, shape.d)
        & matrix_fits(witness, shape.r, shape.n, shape.d)
        & matrix_fits(z, tz, shape.n, shape.d)
}

// The messages before the opening.
pub fn message_lengths(sizes: Sizes, u1: &[i32], p: &[i32], second_b: &[i32], u2: &[i32]) -> bool
    requires { VerifySized sizes }
    ensures { result ≡ all_of (spec.message_lengths_of sizes u1.now p.now second_b.now
        u2.now) }
{
    list_fits(u1, sizes.kappa1, sizes.shape.d)
        & sized(p, sizes.w)
        & five_fit(second_b, sizes.shape.d)
        & list_fits(u2, sizes.kappa2, sizes.shape.d)
}

pub fn matrix_lengths(
    sizes: Sizes,
    a_matrix: &[i32],
    b_matrix: &[i32],
    c_matrix: &[i32],
    d_matrix: &[i32],
) -> bool
    requires { VerifySized sizes }
    ensures { result ≡ all_of (spec.matrix_lengths_of sizes a_matrix.now b_matrix.now c_matrix.now
        d_matrix.now) }
{
    let t_elements = t_size(sizes.shape.r, sizes.kappa, sizes.t1);
    let g_elements = garbage_size(sizes.shape.r, sizes.t2);
    let h_elements = garbage_size(sizes.shape.r, sizes.t1);
    matrix_fits(a_matrix, sizes.kappa, sizes.shape.n, sizes.shape.d)
        & matrix_fits(b_matrix, sizes.kappa1, t_elements, sizes.shape.d)
        & matrix_fits(c_matrix, sizes.kappa1, g_elements, sizes.shape.d)
        & matrix_fits(d_matrix, sizes.kappa2, h_elements, sizes.shape.d)
}
