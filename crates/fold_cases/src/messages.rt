// The calls that write messages. For each: one function makes the call on the case's lists and prints its answer and the lists that it
// wrote, and one makes room for these.
ghost use Rattle.std.specs.Prelude.{◌≡◌};
ghost use Rattle.lizkarg.specs.Calls.{Committed, Projected, Aggregated, GarbageCommitted, Amortized};
ghost use Rattle.capi.specs.Codes.{Coded, code_of, shape_from, z_from, sizes_from};
ghost use Rattle.cases.specs.Lists.{nth_list};
ghost use Rattle.fold.specs.Arguments.{commit_sizes_of, garbage_sizes_of};
ghost use Rattle.fold_cases.specs.Answers.{commit_answer, project_answer, aggregate_answer, garbage_answer, amortize_answer};

use crate::input::{commit_sizes, garbage_sizes};
use crate::output::print_answer;
use capi::sizes::CSizes;
use capi::types::CAnswer;
use cases::input::{FILL, ROOM, count_at};
use cases::lists::{nth_list, past_lists};
use cases::printing::print_list;
use std::io::Stdout;

// Call 1: A, B, C, the witness; t's digits, g's digits, u1.
fn commit(
    stdout: Stdout,
    sizes: CSizes,
    lists: &[i32],
    t: &mut [i32],
    g: &mut [i32],
    u1: &mut [i32],
) -> CAnswer
    ensures { Coded (λ answer. Committed (commit_sizes_of (sizes_from sizes)) (nth_list 0 lists.now) (nth_list 1 lists.now)
        (nth_list 2 lists.now) (nth_list 3 lists.now) t.old g.old u1.old
        answer t.new g.new u1.new) result }
{
    let answer = capi::lizkarg_commit(
        commit_sizes(sizes),
        nth_list(lists, 0),
        nth_list(lists, 1),
        nth_list(lists, 2),
        nth_list(lists, 3),
        t,
        g,
        u1,
    );
    print_answer(stdout, answer);
    print_list(stdout, t);
    print_list(stdout, g);
    print_list(stdout, u1);
    answer
}

pub fn run_commit(stdout: Stdout, sizes: CSizes, lists: &[i32]) -> CAnswer
    ensures { result ≡ code_of (commit_answer sizes lists.now) }
{
    let lengths = past_lists(lists, 4);
    let mut t_room = [FILL; ROOM];
    let mut g_room = [FILL; ROOM];
    let mut u1_room = [FILL; ROOM];
    let t = &mut t_room[..count_at(lengths, 0)];
    let g = &mut g_room[..count_at(lengths, 1)];
    let u1 = &mut u1_room[..count_at(lengths, 2)];
    commit(stdout, sizes, lists, t, g, u1)
}

// Call 2: the rows, the witness; p.
fn project(stdout: Stdout, sizes: CSizes, lists: &[i32], p: &mut [i32]) -> CAnswer
    ensures { Coded (λ answer. Projected (shape_from sizes.shape) sizes.w (nth_list 0 lists.now) (nth_list 1 lists.now)
        p.old answer p.new) result }
{
    let answer = capi::lizkarg_project(
        sizes.shape,
        sizes.w,
        nth_list(lists, 0),
        nth_list(lists, 1),
        p,
    );
    print_answer(stdout, answer);
    print_list(stdout, p);
    answer
}

pub fn run_project(stdout: Stdout, sizes: CSizes, lists: &[i32]) -> CAnswer
    ensures { result ≡ code_of (project_answer sizes lists.now) }
{
    let mut room = [FILL; ROOM];
    let p = &mut room[..count_at(past_lists(lists, 2), 0)];
    project(stdout, sizes, lists, p)
}

// Call 3: the constant-term functions, the rows, psi, omega, the witness; b''.
fn aggregate(stdout: Stdout, sizes: CSizes, lists: &[i32], second_b: &mut [i32]) -> CAnswer
    ensures { Coded (λ answer. Aggregated (shape_from sizes.shape) sizes.l sizes.w (nth_list 0 lists.now)
        (nth_list 1 lists.now) (nth_list 2 lists.now) (nth_list 3 lists.now)
        (nth_list 4 lists.now) second_b.old answer second_b.new) result }
{
    let answer = capi::lizkarg_aggregate(
        sizes.shape,
        sizes.l,
        sizes.w,
        nth_list(lists, 0),
        nth_list(lists, 1),
        nth_list(lists, 2),
        nth_list(lists, 3),
        nth_list(lists, 4),
        second_b,
    );
    print_answer(stdout, answer);
    print_list(stdout, second_b);
    answer
}

pub fn run_aggregate(stdout: Stdout, sizes: CSizes, lists: &[i32]) -> CAnswer
    ensures { result ≡ code_of (aggregate_answer sizes lists.now) }
{
    let mut room = [FILL; ROOM];
    let second_b = &mut room[..count_at(past_lists(lists, 5), 0)];
    aggregate(stdout, sizes, lists, second_b)
}

// Call 4: the whole and the constant-term functions, the rows, psi, omega, alpha, delta, D, the witness; h's digits, u2.
fn commit_garbage(
    stdout: Stdout,
    sizes: CSizes,
    lists: &[i32],
    h: &mut [i32],
    u2: &mut [i32],
) -> CAnswer
    ensures { Coded (λ answer. GarbageCommitted (garbage_sizes_of (sizes_from sizes)) (nth_list 0 lists.now)
        (nth_list 1 lists.now) (nth_list 2 lists.now) (nth_list 3 lists.now)
        (nth_list 4 lists.now) (nth_list 5 lists.now) (nth_list 6 lists.now)
        (nth_list 7 lists.now) (nth_list 8 lists.now) h.old u2.old answer
        h.new u2.new) result }
{
    let answer = capi::lizkarg_commit_garbage(
        garbage_sizes(sizes),
        nth_list(lists, 0),
        nth_list(lists, 1),
        nth_list(lists, 2),
        nth_list(lists, 3),
        nth_list(lists, 4),
        nth_list(lists, 5),
        nth_list(lists, 6),
        nth_list(lists, 7),
        nth_list(lists, 8),
        h,
        u2,
    );
    print_answer(stdout, answer);
    print_list(stdout, h);
    print_list(stdout, u2);
    answer
}

pub fn run_commit_garbage(stdout: Stdout, sizes: CSizes, lists: &[i32]) -> CAnswer
    ensures { result ≡ code_of (garbage_answer sizes lists.now) }
{
    let lengths = past_lists(lists, 9);
    let mut h_room = [FILL; ROOM];
    let mut u2_room = [FILL; ROOM];
    let h = &mut h_room[..count_at(lengths, 0)];
    let u2 = &mut u2_room[..count_at(lengths, 1)];
    commit_garbage(stdout, sizes, lists, h, u2)
}

// z in two digits, or in one.
fn call_amortize(sizes: CSizes, c: &[i32], witness: &[i32], z: &mut [i32]) -> CAnswer
    ensures { Coded (λ answer. Amortized (shape_from sizes.shape) (z_from sizes.one_digit sizes.b) c.now witness.now
        z.old answer z.new) result }
{
    if sizes.one_digit == 0 {
        capi::lizkarg_amortize(sizes.shape, sizes.b, c, witness, z)
    } else {
        capi::lizkarg_amortize_one_digit(sizes.shape, c, witness, z)
    }
}

// Call 5: the challenges, the witness; z's digits.
fn amortize(stdout: Stdout, sizes: CSizes, lists: &[i32], z: &mut [i32]) -> CAnswer
    ensures { Coded (λ answer. Amortized (shape_from sizes.shape) (z_from sizes.one_digit sizes.b) (nth_list 0 lists.now) (nth_list 1 lists.now)
        z.old answer z.new) result }
{
    let answer = call_amortize(sizes, nth_list(lists, 0), nth_list(lists, 1), z);
    print_answer(stdout, answer);
    print_list(stdout, z);
    answer
}

pub fn run_amortize(stdout: Stdout, sizes: CSizes, lists: &[i32]) -> CAnswer
    ensures { result ≡ code_of (amortize_answer sizes lists.now) }
{
    let mut room = [FILL; ROOM];
    let z = &mut room[..count_at(past_lists(lists, 2), 0)];
    amortize(stdout, sizes, lists, z)
}
