// The projection rows, weighted and summed for the five second functions together. The sums are exact and stay below 2^40; each is reduced
// once. Number y * 5 + k of an accumulator belongs to coefficient y and function k.
ghost use Rattle.std.specs.Prelude.{◌≡◌, ◌+◌, ◌*◌, ◌/◌, ◌<◌, ◌≤◌, length, get_or, pos, nat_abs, ◌*ℤ◌};
ghost use Rattle.integers.specs.Lists.{tab, upto};
ghost use Rattle.residues.specs.Modulus.{centred};
ghost use Rattle.ring.specs.Element.{Degree, array};
ghost use Rattle.fold.specs.Entries.{projection_entry};
ghost use Rattle.constraints.specs.Known.Facts.{ProjectionFacts};
ghost use Rattle.constraints.specs.RowGroups.{CodesOf, OmegaSums, omega_sum_count};
ghost use Rattle.constraints.specs.Accumulator.{FiveRoom, SmallFive, AddedFive};
ghost use Rattle.constraints.specs.ProjectedRows.{Summed};
ghost use Rattle.fold.specs.Limits.{most_projections};

use crate::row_groups::{CODES, OMEGA_SUMS, group_codes};
use fold::Shape;
use residues::modulus;

// Adds five neighbouring numbers of the table.
fn add_five(acc: &mut [i64; 320], at: usize, omega_sums: &[i64; OMEGA_SUMS], from: usize)
    requires five_room { FiveRoom acc.old at }
    requires from_bound { (from + 5 ≤ omega_sum_count) × SmallFive 8589934592 omega_sums.now from }
    ensures { AddedFive 8589934592 (λ k. get_or omega_sums.now (from + k) (pos 0)) at acc.old 5 acc.new }
{
    for k in 0..5 {
        acc[at + k] += omega_sums[from + k];
    }
}

// Adds the entry x of row j, weighted for each function.
fn add_entry(acc: &mut [i64; 320], at: usize, w: usize, omega: &[i32], j: usize, x: i32)
    requires x_bound { nat_abs x ≤ 1 }
    requires five_room { FiveRoom acc.old at }
    requires w_le_most_projections { (w ≤ most_projections) × (j < w) × (length omega.now ≡ 5 * w) }
    ensures { AddedFive 2147483648 (λ k. get_or omega.now (k * w + j) (pos 0) *ℤ x) at acc.old 5
        acc.new }
{
    for k in 0..5 {
        acc[at + k] += omega[k * w + j] as i64 * x as i64;
    }
}

// Adds four rows, by their codes.
fn add_group(
    shape: Shape,
    w: usize,
    projections: &[i32],
    omega: &[i32],
    omega_sums: &[i64; OMEGA_SUMS],
    e: usize,
    codes: &[u32; CODES],
    group: usize,
    acc: &mut [i64; 320],
)
    requires degree { (Degree shape.d) × (w ≤ most_projections) × (group < w / 4) }
    requires omega_sums { OmegaSums w omega.now omega_sums.now }
    requires codes_of { CodesOf shape.d (shape.r * shape.n) projections.now e (w / 4) codes.now }
    requires summed { Summed shape.d (shape.r * shape.n) w projections.now omega.now e (group * 4) acc.old }
    ensures { Summed shape.d (shape.r * shape.n) w projections.now omega.now e (group * 4 + 4) acc.new }
{
    for y in 0..shape.d {
        let number = group * 81 + codes[group * 64 + y] as usize;
        add_five(acc, y * 5, omega_sums, number * 5);
    }
}

// Adds row j, entry by entry.
fn add_row(
    shape: Shape,
    w: usize,
    projections: &[i32],
    omega: &[i32],
    e: usize,
    j: usize,
    acc: &mut [i64; 320],
)
    requires projection_facts { ProjectionFacts shape.d shape.n shape.r w projections.now omega.now }
    requires e_bound { (e < shape.r * shape.n) × (j < w) }
    requires summed { Summed shape.d (shape.r * shape.n) w projections.now omega.now e j acc.old }
    ensures { Summed shape.d (shape.r * shape.n) w projections.now omega.now e (j + 1) acc.new }
{
    let at = (j * (shape.r * shape.n) + e) * shape.d;
    for y in 0..shape.d {
        let x = projections[at + y];
        add_entry(acc, y * 5, w, omega, j, x);
    }
}

// Adds the groups of four rows.
fn add_groups(
    shape: Shape,
    w: usize,
    projections: &[i32],
    omega: &[i32],
    omega_sums: &[i64; OMEGA_SUMS],
    e: usize,
    codes: &[u32; CODES],
    acc: &mut [i64; 320],
)
    requires degree { (Degree shape.d) × (w ≤ most_projections) }
    requires omega_sums { OmegaSums w omega.now omega_sums.now }
    requires codes_of { CodesOf shape.d (shape.r * shape.n) projections.now e (w / 4) codes.now }
    requires summed { Summed shape.d (shape.r * shape.n) w projections.now omega.now e 0 acc.old }
    ensures { Summed shape.d (shape.r * shape.n) w projections.now omega.now e (w / 4 * 4) acc.new }
{
    for group in 0..w / 4 {
        add_group(
            shape,
            w,
            projections,
            omega,
            omega_sums,
            e,
            codes,
            group,
            acc,
        );
    }
}

// Adds the rows that the groups leave over.
fn add_rest(
    shape: Shape,
    w: usize,
    projections: &[i32],
    omega: &[i32],
    e: usize,
    acc: &mut [i64; 320],
)
    requires projection_facts { ProjectionFacts shape.d shape.n shape.r w projections.now omega.now }
    requires e_bound { e < shape.r * shape.n }
    requires summed { Summed shape.d (shape.r * shape.n) w projections.now omega.now e (w / 4 * 4) acc.old }
    ensures { Summed shape.d (shape.r * shape.n) w projections.now omega.now e w acc.new }
{
    for j in w / 4 * 4..w {
        add_row(shape, w, projections, omega, e, j, acc);
    }
}

// The centred coefficients of function k.
fn centred_element(d: usize, acc: &[i64; 320], k: usize) -> [i32; 64]
    requires degree { Degree d }
    requires k_bound { k < 5 }
    ensures { result ≡ tab 64 (upto d (λ y. centred (get_or acc.now (y * 5 + k) (pos 0))) (pos 0)) }
{
    let mut out = [0i32; 64];
    for y in 0..d {
        out[y] = modulus::centre(acc[y * 5 + k]);
    }
    out
}

// The centred elements of the five functions.
fn centred_row(d: usize, acc: &[i64; 320]) -> [[i32; 64]; 5]
    requires { Degree d }
    ensures { result ≡ tab 5 (λ k. tab 64 (upto d (λ y. centred (get_or acc.now (y * 5 + k) (pos 0))) (pos 0))) }
{
    let mut out = [[0i32; 64]; 5];
    for k in 0..5 {
        out[k] = centred_element(d, acc, k);
    }
    out
}

// Σ_j ω_kj row_j at element e of the witness, for the five k.
pub fn projection_row(
    shape: Shape,
    w: usize,
    projections: &[i32],
    omega: &[i32],
    omega_sums: &[i64; OMEGA_SUMS],
    e: usize,
) -> [[i32; 64]; 5]
    requires projection_facts { ProjectionFacts shape.d shape.n shape.r w projections.now omega.now }
    requires omega_sums { OmegaSums w omega.now omega_sums.now }
    requires e_bound { e < shape.r * shape.n }
    ensures { result ≡ tab 5 (λ k. array shape.d (projection_entry shape.d shape.n shape.r w projections.now
        omega.now k e)) }
{
    let mut codes = [0u32; CODES];
    group_codes(shape, w, projections, omega, e, &mut codes);
    let mut acc = [0i64; 320];
    add_groups(
        shape,
        w,
        projections,
        omega,
        omega_sums,
        e,
        &codes,
        &mut acc,
    );
    add_rest(shape, w, projections, omega, e, &mut acc);
    centred_row(shape.d, &acc)
}
