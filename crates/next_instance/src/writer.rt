// The constraints of the next instance, check by check: "checks 5 (κ), 6, 7, 8, 3 (κ1), 4 (κ2)". Each group is written from element `at` on.
ghost use Rattle.std.specs.Prelude.{◌≡◌, ◌++◌, ◌+◌, ◌*◌, ◌<◌, ◌≤◌, length};
ghost use Rattle.integers.specs.Over.{over};
ghost use Rattle.integers.specs.Flat.{flat};
ghost use Rattle.ring.specs.Element.{lift, array};
ghost use Rattle.fold.specs.Arguments.{VerifySized, statement_with, draws_of, transcript_of};
ghost use Rattle.fold.specs.Sizes.{t_size, garbage_size};
ghost use Rattle.fold.specs.NextInstance.{next_whole};
ghost use Rattle.fold.specs.Known.NextFacts.{NextFacts};
ghost use Rattle.next_checks.specs.Known.Facts.{CutFacts};
ghost use Rattle.next_constraints.specs.Tables.{TableRoom};
ghost use Rattle.next_checks.specs.Checks.{laid, check5, check6, check7, check8, check3, check4};

use constraints::aggregated;
use fold::Sizes;
use fold::limits::{PAIR_ROOM, PART_ROOM};
use next_checks::cut::{Cut, cut_of};
use next_checks::writers;
use next_constraints::blocks::write_row;
use next_constraints::elements::write_blocks;
use next_constraints::lists::write_tables;
use ring::element::Element;

// The rows of check 5. `minus` holds minus the challenges.
fn write_rows5(sizes: Sizes, cut: Cut, a_matrix: &[i32], minus: &[i32], out: &mut [i32], at: usize)
    requires verify_sized { VerifySized sizes }
    requires cut_facts { CutFacts sizes cut }
    requires a_matrix_len { (length a_matrix.now ≡ sizes.kappa * sizes.shape.n * sizes.shape.d) × (sizes.shape.r * sizes.shape.d ≤ length minus.now) }
    requires d_in_bounds { (at + sizes.kappa * (cut.size + 1)) * sizes.shape.d ≤ length out.old }
    ensures { out.new ≡ over out.old (at * sizes.shape.d)
        (flat sizes.kappa (λ k. laid sizes cut (check5 sizes cut.tz a_matrix.now minus.now k))) }
{
    let d = sizes.shape.d;
    let size = cut.size + 1;
    write_blocks(d, sizes.kappa, size, out, at, |k, place, out| {
        writers::write_check5(sizes, cut, a_matrix, minus, k, out, place);
    });
}

// Checks 6, 7 and 8. `b` is the aggregate's.
fn write_middle(
    sizes: Sizes,
    cut: Cut,
    folded: &[i32],
    products: &[i32],
    aggregate_a: &[i32],
    diagonal: &[i32],
    b: Element,
    out: &mut [i32],
    at: usize,
)
    requires verify_sized { VerifySized sizes }
    requires cut_facts { CutFacts sizes cut }
    requires table_room { TableRoom sizes.shape.d sizes.shape.n sizes.shape.r folded.now products.now aggregate_a.now diagonal.now }
    requires coefficients_value { b.coefficients ≡ array sizes.shape.d (lift sizes.shape.d b.coefficients) }
    requires d_in_bounds { (at + 3 * (cut.size + 1)) * sizes.shape.d ≤ length out.old }
    ensures { out.new ≡ over out.old (at * sizes.shape.d)
        (laid sizes cut (check6 sizes cut.tz cut.nu products.now)
        ++ (laid sizes cut (check7 sizes cut.tz folded.now products.now)
        ++ laid sizes cut (check8 sizes cut.tz aggregate_a.now diagonal.now (lift sizes.shape.d b.coefficients)))) }
{
    let size = cut.size + 1;
    let seventh = at + size;
    let eighth = seventh + size;
    writers::write_check6(sizes, cut, products, out, at);
    writers::write_check7(sizes, cut, folded, products, out, seventh);
    writers::write_check8(sizes, cut, aggregate_a, diagonal, b, out, eighth);
}

// The rows of check 3.
fn write_rows3(
    sizes: Sizes,
    cut: Cut,
    b_matrix: &[i32],
    c_matrix: &[i32],
    u1: &[i32],
    out: &mut [i32],
    at: usize,
)
    requires verify_sized { VerifySized sizes }
    requires cut_facts { CutFacts sizes cut }
    requires b_matrix_len { length b_matrix.now ≡ sizes.kappa1 * t_size sizes.shape.r sizes.kappa sizes.t1 * sizes.shape.d }
    requires c_matrix_len { length c_matrix.now ≡ sizes.kappa1 * garbage_size sizes.shape.r sizes.t2 * sizes.shape.d }
    requires u1_len { length u1.now ≡ sizes.kappa1 * sizes.shape.d }
    requires d_in_bounds { (at + sizes.kappa1 * (cut.size + 1)) * sizes.shape.d ≤ length out.old }
    ensures { out.new ≡ over out.old (at * sizes.shape.d)
        (flat sizes.kappa1 (λ k. laid sizes cut (check3 sizes cut.tz b_matrix.now c_matrix.now u1.now k))) }
{
    let d = sizes.shape.d;
    let size = cut.size + 1;
    write_blocks(d, sizes.kappa1, size, out, at, |k, place, out| {
        writers::write_check3(sizes, cut, b_matrix, c_matrix, u1, k, out, place);
    });
}

// The rows of check 4.
fn write_rows4(sizes: Sizes, cut: Cut, d_matrix: &[i32], u2: &[i32], out: &mut [i32], at: usize)
    requires verify_sized { VerifySized sizes }
    requires cut_facts { CutFacts sizes cut }
    requires d_matrix_len { length d_matrix.now ≡ sizes.kappa2 * garbage_size sizes.shape.r sizes.t1 * sizes.shape.d }
    requires u2_len { length u2.now ≡ sizes.kappa2 * sizes.shape.d }
    requires d_in_bounds { (at + sizes.kappa2 * (cut.size + 1)) * sizes.shape.d ≤ length out.old }
    ensures { out.new ≡ over out.old (at * sizes.shape.d)
        (flat sizes.kappa2 (λ k. laid sizes cut (check4 sizes cut.tz d_matrix.now u2.now k))) }
{
    let d = sizes.shape.d;
    let size = cut.size + 1;
    write_blocks(d, sizes.kappa2, size, out, at, |k, place, out| {
        writers::write_check4(sizes, cut, d_matrix, u2, k, out, place);
    });
}

// The whole constraints of the next instance, where z has tz digits.
pub fn write_instance(
    tz: usize,
    sizes: Sizes,
    nu: usize,
    mu: usize,
    a_matrix: &[i32],
    b_matrix: &[i32],
    c_matrix: &[i32],
    d_matrix: &[i32],
    whole: &[i32],
    constant_terms: &[i32],
    u1: &[i32],
    projections: &[i32],
    p: &[i32],
    psi: &[i32],
    omega: &[i32],
    second_b: &[i32],
    alpha: &[i32],
    delta: &[i32],
    u2: &[i32],
    c: &[i32],
    out: &mut [i32],
)
    requires next_facts { NextFacts tz sizes a_matrix.now b_matrix.now c_matrix.now d_matrix.now whole.now constant_terms.now projections.now
        psi.now omega.now alpha.now delta.now c.now u1.now p.now second_b.now u2.now nu mu out.old }
    requires tz_nonzero { (0 < tz) × (tz ≤ 2) }
    ensures { out.new ≡ next_whole
        (statement_with tz sizes a_matrix.now b_matrix.now c_matrix.now d_matrix.now whole.now constant_terms.now)
        (draws_of projections.now psi.now omega.now alpha.now delta.now c.now)
        (transcript_of u1.now p.now second_b.now u2.now) nu mu }
{
    let cut = cut_of(sizes, tz, nu, mu);
    let size = cut.size + 1;
    let mut minus = [0i32; 1024];
    let mut folded = [0i32; PART_ROOM];
    let mut products = [0i32; PAIR_ROOM];
    let mut aggregate_a = [0i32; PAIR_ROOM];
    let mut diagonal = [0i32; PAIR_ROOM];
    write_row(sizes.shape.d, sizes.shape.r, -1, c, 0, &mut minus, 0);
    write_tables(
        sizes,
        whole,
        constant_terms,
        projections,
        psi,
        omega,
        alpha,
        delta,
        c,
        &mut folded,
        &mut products,
        &mut aggregate_a,
        &mut diagonal,
    );
    let b = aggregated::aggregate_constant(sizes.shape, sizes.k, whole, alpha, delta, second_b);
    let sixth = sizes.kappa * size;
    let third = sixth + 3 * size;
    let fourth = third + sizes.kappa1 * size;
    write_rows5(sizes, cut, a_matrix, &minus, out, 0);
    write_middle(
        sizes,
        cut,
        &folded,
        &products,
        &aggregate_a,
        &diagonal,
        b,
        out,
        sixth,
    );
    write_rows3(sizes, cut, b_matrix, c_matrix, u1, out, third);
    write_rows4(sizes, cut, d_matrix, u2, out, fourth);
}
