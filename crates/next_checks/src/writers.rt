// The constraint of each check, written at element `at`: its blocks over zeros, its a, and then φ and b.
ghost use Rattle.std.specs.Prelude.{◌≡◌, ◌+◌, ◌*◌, ◌<◌, ◌≤◌, length};
ghost use Rattle.integers.specs.Over.{over};
ghost use Rattle.ring.specs.Element.{lift, array};
ghost use Rattle.fold.specs.Sizes.{pairs, t_size, garbage_size};
ghost use Rattle.fold.specs.Arguments.{VerifySized};
ghost use Rattle.next_checks.specs.Known.Facts.{CutFacts};
ghost use Rattle.next_checks.specs.Checks.{laid, check5, check6, check7, check8, check3, check4};

use crate::cut::Cut;
use crate::spread::finish;
use fold::Sizes;
use next_constraints::blocks::{
    Digits, write_garbage, write_matrix_row, write_parts, write_z, write_zeros,
};
use next_constraints::squares::write_squares;
use ring::element::Element;

// Check 5, row k: A on z, minus the challenges on row k of t.
pub fn write_check5(
    sizes: Sizes,
    cut: Cut,
    a_matrix: &[i32],
    minus: &[i32],
    k: usize,
    out: &mut [i32],
    at: usize,
)
    requires verify_sized { VerifySized sizes }
    requires cut_facts { CutFacts sizes cut }
    requires a_matrix_len { (length a_matrix.now ≡ sizes.kappa * sizes.shape.n * sizes.shape.d) × (sizes.shape.r * sizes.shape.d ≤ length minus.now) }
    requires k_lt_kappa { (k < sizes.kappa) × ((at + cut.size + 1) * sizes.shape.d ≤ length out.old) }
    ensures { out.new ≡ over out.old (at * sizes.shape.d)
        (laid sizes cut (check5 sizes cut.tz a_matrix.now minus.now k)) }
{
    let d = sizes.shape.d;
    let n = sizes.shape.n;
    let digits = Digits {
        base: sizes.b1,
        count: sizes.t1,
        rows: sizes.kappa,
        row: k,
    };
    write_zeros(d, cut.size, out, at);
    write_z(d, n, cut.tz, sizes.b, a_matrix, k * n, out, at + cut.z);
    write_parts(d, digits, sizes.shape.r, minus, out, at + cut.t);
    finish(sizes, cut, Element::additive_identity(), out, at);
}

// Check 6: the squares of z, the products of challenges on g.
pub fn write_check6(sizes: Sizes, cut: Cut, products: &[i32], out: &mut [i32], at: usize)
    requires verify_sized { VerifySized sizes }
    requires cut_facts { CutFacts sizes cut }
    requires d_in_bounds { pairs sizes.shape.r * sizes.shape.d ≤ length products.now }
    requires d_in_bounds_2 { (at + cut.size + 1) * sizes.shape.d ≤ length out.old }
    ensures { out.new ≡ over out.old (at * sizes.shape.d)
        (laid sizes cut (check6 sizes cut.tz cut.nu products.now)) }
{
    let d = sizes.shape.d;
    let first = at * d;
    let end = first + cut.pairs * d;
    write_zeros(d, cut.size, out, at);
    write_squares(d, cut.tz, cut.nu, sizes.b, cut.parts, &mut out[first..end]);
    write_garbage(
        d,
        sizes.shape.r,
        sizes.b2,
        sizes.t2,
        products,
        out,
        at + cut.g,
    );
    finish(sizes, cut, Element::additive_identity(), out, at);
}

// Check 7: Σ φ_i c_i on z, the products of challenges on h.
pub fn write_check7(
    sizes: Sizes,
    cut: Cut,
    folded: &[i32],
    products: &[i32],
    out: &mut [i32],
    at: usize,
)
    requires verify_sized { VerifySized sizes }
    requires cut_facts { CutFacts sizes cut }
    requires d_in_bounds { (sizes.shape.n * sizes.shape.d ≤ length folded.now) × (pairs sizes.shape.r * sizes.shape.d ≤ length products.now) }
    requires d_in_bounds_2 { (at + cut.size + 1) * sizes.shape.d ≤ length out.old }
    ensures { out.new ≡ over out.old (at * sizes.shape.d)
        (laid sizes cut (check7 sizes cut.tz folded.now products.now)) }
{
    let d = sizes.shape.d;
    let n = sizes.shape.n;
    write_zeros(d, cut.size, out, at);
    write_z(d, n, cut.tz, sizes.b, folded, 0, out, at + cut.z);
    write_garbage(
        d,
        sizes.shape.r,
        sizes.b1,
        sizes.t1,
        products,
        out,
        at + cut.h,
    );
    finish(sizes, cut, Element::additive_identity(), out, at);
}

// Check 8: the aggregate's a on g, the diagonal on h, and the aggregate's b.
pub fn write_check8(
    sizes: Sizes,
    cut: Cut,
    aggregate_a: &[i32],
    diagonal: &[i32],
    b: Element,
    out: &mut [i32],
    at: usize,
)
    requires verify_sized { VerifySized sizes }
    requires cut_facts { CutFacts sizes cut }
    requires d_in_bounds { (pairs sizes.shape.r * sizes.shape.d ≤ length aggregate_a.now) × (pairs sizes.shape.r * sizes.shape.d ≤ length diagonal.now) }
    requires coefficients_value { b.coefficients ≡ array sizes.shape.d (lift sizes.shape.d b.coefficients) }
    requires d_in_bounds_2 { (at + cut.size + 1) * sizes.shape.d ≤ length out.old }
    ensures { out.new ≡ over out.old (at * sizes.shape.d)
        (laid sizes cut (check8 sizes cut.tz aggregate_a.now diagonal.now (lift sizes.shape.d b.coefficients))) }
{
    let d = sizes.shape.d;
    let r = sizes.shape.r;
    write_zeros(d, cut.size, out, at);
    write_garbage(d, r, sizes.b2, sizes.t2, aggregate_a, out, at + cut.g);
    write_garbage(d, r, sizes.b1, sizes.t1, diagonal, out, at + cut.h);
    finish(sizes, cut, b, out, at);
}

// Check 3, row k: B on t, C on g, and u1.
pub fn write_check3(
    sizes: Sizes,
    cut: Cut,
    b_matrix: &[i32],
    c_matrix: &[i32],
    u1: &[i32],
    k: usize,
    out: &mut [i32],
    at: usize,
)
    requires verify_sized { VerifySized sizes }
    requires cut_facts { CutFacts sizes cut }
    requires b_matrix_len { length b_matrix.now ≡ sizes.kappa1 * t_size sizes.shape.r sizes.kappa sizes.t1 * sizes.shape.d }
    requires c_matrix_len { length c_matrix.now ≡ sizes.kappa1 * garbage_size sizes.shape.r sizes.t2 * sizes.shape.d }
    requires u1_len { (length u1.now ≡ sizes.kappa1 * sizes.shape.d) × (k < sizes.kappa1) }
    requires d_in_bounds { (at + cut.size + 1) * sizes.shape.d ≤ length out.old }
    ensures { out.new ≡ over out.old (at * sizes.shape.d)
        (laid sizes cut (check3 sizes cut.tz b_matrix.now c_matrix.now u1.now k)) }
{
    let d = sizes.shape.d;
    write_zeros(d, cut.size, out, at);
    write_matrix_row(d, cut.g - cut.t, b_matrix, k, out, at + cut.t);
    write_matrix_row(d, cut.h - cut.g, c_matrix, k, out, at + cut.g);
    finish(sizes, cut, Element::from_slice(d, u1, k), out, at);
}

// Check 4, row k: D on h, and u2.
pub fn write_check4(
    sizes: Sizes,
    cut: Cut,
    d_matrix: &[i32],
    u2: &[i32],
    k: usize,
    out: &mut [i32],
    at: usize,
)
    requires verify_sized { VerifySized sizes }
    requires cut_facts { CutFacts sizes cut }
    requires d_matrix_len { length d_matrix.now ≡ sizes.kappa2 * garbage_size sizes.shape.r sizes.t1 * sizes.shape.d }
    requires u2_len { (length u2.now ≡ sizes.kappa2 * sizes.shape.d) × (k < sizes.kappa2) }
    requires d_in_bounds { (at + cut.size + 1) * sizes.shape.d ≤ length out.old }
    ensures { out.new ≡ over out.old (at * sizes.shape.d)
        (laid sizes cut (check4 sizes cut.tz d_matrix.now u2.now k)) }
{
    let d = sizes.shape.d;
    write_zeros(d, cut.size, out, at);
    write_matrix_row(d, cut.size - cut.h, d_matrix, k, out, at + cut.h);
    finish(sizes, cut, Element::from_slice(d, u2, k), out, at);
}
