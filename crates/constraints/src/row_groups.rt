// The projection rows, four at a time. Four entries have a code below 81, whose digits to base 3 are the entries plus 1. A table holds, for
// each group of four rows, each code and each second function, the weighted sum of the four entries.
ghost use Rattle.std.specs.Prelude.{◌≡◌, true, ◌+◌, ◌*◌, ◌/◌, ◌<◌, ◌≤◌, length, get_or, pos, nat_abs, ◌+ℤ◌, ◌-ℤ◌, ◌*ℤ◌};
ghost use Rattle.residues.specs.Range.{projection_entries};
ghost use Rattle.constraints.specs.Known.Facts.{ProjectionFacts};
ghost use Rattle.constraints.specs.RowGroups.{decode, Coded, Codes, CodesOf, Summand, WeightedSum, OmegaSums, omega_sum_count, code_count};
ghost use Rattle.fold.specs.Limits.{most_projections};

use fold::Shape;

// Numbers of the table: a group of four rows, a code of four entries and a second function have one.
pub const OMEGA_SUMS: usize = 25920;

// Codes of an element: a group of four rows and a coefficient have one.
pub const CODES: usize = 4096;

// The digit x + 1 of an entry x.
fn entry_digit(x: i32) -> u32
    requires { nat_abs x ≤ 1 }
    ensures { (result < 3) × (x ≡ pos result -ℤ pos 1) }
{
    (x + 1) as u32
}

// The code of four entries.
fn code(x0: i32, x1: i32, x2: i32, x3: i32) -> u32
    requires { (nat_abs x0 ≤ 1) × (nat_abs x1 ≤ 1) × (nat_abs x2 ≤ 1) × (nat_abs x3 ≤ 1) }
    ensures { Coded result x0 x1 x2 x3 }
{
    let high = entry_digit(x3) * 3 + entry_digit(x2);
    (high * 3 + entry_digit(x1)) * 3 + entry_digit(x0)
}

// The code of the entries of four rows, which stand `step` apart, the first at `at`.
fn code_at(projections: &[i32], at: usize, step: usize) -> u32
    requires projections_value { projection_entries projections.now ≡ true }
    requires step_in_bounds { at + step + step + step < length projections.now }
    ensures { Coded result (get_or projections.now at (pos 0)) (get_or projections.now (at + step) (pos 0))
        (get_or projections.now (at + step + step) (pos 0)) (get_or projections.now (at + step + step + step) (pos 0)) }
{
    let second = at + step;
    let third = second + step;
    let fourth = third + step;
    code(
        projections[at],
        projections[second],
        projections[third],
        projections[fourth],
    )
}

// The codes of d neighbouring entries of four rows, from place `from` on.
fn write_codes(
    d: usize,
    projections: &[i32],
    at: usize,
    step: usize,
    codes: &mut [u32; CODES],
    from: usize,
)
    requires projections_value { projection_entries projections.now ≡ true }
    requires step_in_bounds { at + d + step + step + step ≤ length projections.now }
    requires d_bound { (from + d ≤ code_count) × (length codes.old ≡ code_count) }
    ensures { Codes projections.now at step from codes.old d codes.new }
{
    for y in 0..d {
        codes[from + y] = code_at(projections, at + y, step);
    }
}

// The codes at element e of the witness: number g * 64 + y is that of group g and coefficient y. They are formed before the sums, so that
// the rows, which stand far apart, are read without waiting.
pub fn group_codes(
    shape: Shape,
    w: usize,
    projections: &[i32],
    omega: &[i32],
    e: usize,
    codes: &mut [u32; CODES],
)
    requires projection_facts { ProjectionFacts shape.d shape.n shape.r w projections.now omega.now }
    requires e_bound { (e < shape.r * shape.n) × (length codes.old ≡ code_count) }
    ensures { CodesOf shape.d (shape.r * shape.n) projections.now e (w / 4) codes.new }
{
    let d = shape.d;
    let count = shape.r * shape.n;
    let step = count * d;
    for g in 0..w / 4 {
        let at = (g * 4 * count + e) * d;
        write_codes(d, projections, at, step, codes, g * 64);
    }
}

// The entry of which the last digit of a code is the digit.
fn decoded(c: usize) -> i32
    ensures { result ≡ decode c }
{
    ((c % 3) as i64 - 1) as i32
}

fn add_signed(acc: i64, x: i32, y: i32) -> i64
    requires { nat_abs acc < 4611686018427387904 }
    ensures { result ≡ acc +ℤ (x *ℤ y) }
{
    acc + x as i64 * y as i64
}

// One more weighted entry: the number of omega at `at`, times the entry of the last digit of c.
fn add_summand(sum: i64, omega: &[i32], at: usize, c: usize) -> i64
    requires { (at < length omega.now) × (nat_abs sum ≤ 6442450944) }
    ensures { Summand omega.now at c sum result }
{
    add_signed(sum, omega[at], decoded(c))
}

// The sum of the four entries of code c, weighted by the numbers of omega from `at` on.
fn weighted_sum(omega: &[i32], at: usize, c: usize) -> i64
    requires { at + 4 ≤ length omega.now }
    ensures { WeightedSum omega.now at c result }
{
    let one = add_summand(0, omega, at, c);
    let two = add_summand(one, omega, at + 1, c / 3);
    let three = add_summand(two, omega, at + 2, c / 9);
    add_summand(three, omega, at + 3, c / 27)
}

// The table: number (g * 81 + c) * 5 + k is the sum of the entries of code c, weighted by the numbers ω_k of group g.
pub fn write_omega_sums(w: usize, omega: &[i32], omega_sums: &mut [i64; OMEGA_SUMS])
    requires { (w ≤ most_projections) × (length omega.now ≡ 5 * w) × (length omega_sums.old ≡ omega_sum_count) }
    ensures { OmegaSums w omega.now omega_sums.new }
{
    for i in 0..w / 4 * 405 {
        let number = i / 5;
        let at = i % 5 * w + number / 81 * 4;
        omega_sums[i] = weighted_sum(omega, at, number % 81);
    }
}
