// A fold: messages 1 to 5 from a statement and a witness, and the verdict on them. `lists` are A, B, C, D, the whole and the constant-term
// functions, the rows, ψ, ω, α, δ, c and the witness; the whole functions and the witness of the fold are lent besides, since
// those of a second fold come from the first.
// `lengths` and `messages` are those of module messages.
ghost use Rattle.std.specs.Prelude.{◌≡◌};
ghost use Rattle.lizkarg.specs.Calls.{Amortized};
ghost use Rattle.capi.specs.Codes.{Coded, shape_from, z_from};
ghost use Rattle.next_cases.specs.Runs.{Committing, Projecting, Aggregating, GarbageCommitting, Amortizing, verdict_of, Folded};

use crate::input::ROOM;
use crate::messages::{G, H, P, SECOND_B, T, U1, U2, Z, keep, message, opening};
use crate::output::print_answer;
use capi::sizes::{CCommitSizes, CGarbageSizes, CSizes};
use capi::types::CAnswer;
use cases::input::FILL;
use cases::lists::nth_list;
use cases::numbers::size;
use std::io::Stdout;

fn commit(
    stdout: Stdout,
    place: usize,
    sizes: CSizes,
    lists: &[i32],
    witness: &[i32],
    lengths: &[i32],
    messages: &mut [i32],
) -> CAnswer
    ensures { Committing sizes lists.now witness.now lengths.now messages.old result
        messages.new }
{
    let mut t_room = [FILL; ROOM];
    let mut g_room = [FILL; ROOM];
    let mut u1_room = [FILL; ROOM];
    let t = &mut t_room[..size(lengths, T, ROOM)];
    let g = &mut g_room[..size(lengths, G, ROOM)];
    let u1 = &mut u1_room[..size(lengths, U1, ROOM)];
    let its = CCommitSizes {
        shape: sizes.shape,
        kappa: sizes.kappa,
        kappa1: sizes.kappa1,
        b1: sizes.b1,
        b2: sizes.b2,
        t1: sizes.t1,
        t2: sizes.t2,
    };
    let answer = capi::lizkarg_commit(
        its,
        nth_list(lists, 0),
        nth_list(lists, 1),
        nth_list(lists, 2),
        witness,
        t,
        g,
        u1,
    );
    print_answer(stdout, place, answer);
    keep(stdout, messages, lengths, T, t);
    keep(stdout, messages, lengths, G, g);
    keep(stdout, messages, lengths, U1, u1);
    answer
}

fn project(
    stdout: Stdout,
    sizes: CSizes,
    lists: &[i32],
    witness: &[i32],
    lengths: &[i32],
    messages: &mut [i32],
) -> CAnswer
    ensures { Projecting sizes lists.now witness.now lengths.now messages.old result
        messages.new }
{
    let mut room = [FILL; ROOM];
    let p = &mut room[..size(lengths, P, ROOM)];
    let answer = capi::lizkarg_project(sizes.shape, sizes.w, nth_list(lists, 6), witness, p);
    print_answer(stdout, 1, answer);
    keep(stdout, messages, lengths, P, p);
    answer
}

fn aggregate(
    stdout: Stdout,
    sizes: CSizes,
    lists: &[i32],
    witness: &[i32],
    lengths: &[i32],
    messages: &mut [i32],
) -> CAnswer
    ensures { Aggregating sizes lists.now witness.now lengths.now messages.old result
        messages.new }
{
    let mut room = [FILL; ROOM];
    let second_b = &mut room[..size(lengths, SECOND_B, ROOM)];
    let answer = capi::lizkarg_aggregate(
        sizes.shape,
        sizes.l,
        sizes.w,
        nth_list(lists, 5),
        nth_list(lists, 6),
        nth_list(lists, 7),
        nth_list(lists, 8),
        witness,
        second_b,
    );
    print_answer(stdout, 1, answer);
    keep(stdout, messages, lengths, SECOND_B, second_b);
    answer
}

fn commit_garbage(
    stdout: Stdout,
    sizes: CSizes,
    lists: &[i32],
    whole: &[i32],
    witness: &[i32],
    lengths: &[i32],
    messages: &mut [i32],
) -> CAnswer
    ensures { GarbageCommitting sizes lists.now whole.now witness.now lengths.now
        messages.old result messages.new }
{
    let mut h_room = [FILL; ROOM];
    let mut u2_room = [FILL; ROOM];
    let h = &mut h_room[..size(lengths, H, ROOM)];
    let u2 = &mut u2_room[..size(lengths, U2, ROOM)];
    let its = CGarbageSizes {
        shape: sizes.shape,
        k: sizes.k,
        l: sizes.l,
        w: sizes.w,
        kappa2: sizes.kappa2,
        b1: sizes.b1,
        t1: sizes.t1,
    };
    let answer = capi::lizkarg_commit_garbage(
        its,
        whole,
        nth_list(lists, 5),
        nth_list(lists, 6),
        nth_list(lists, 7),
        nth_list(lists, 8),
        nth_list(lists, 9),
        nth_list(lists, 10),
        nth_list(lists, 3),
        witness,
        h,
        u2,
    );
    print_answer(stdout, 1, answer);
    keep(stdout, messages, lengths, H, h);
    keep(stdout, messages, lengths, U2, u2);
    answer
}

// z in two digits, or in one.
fn call_amortize(sizes: CSizes, c: &[i32], witness: &[i32], z: &mut [i32]) -> CAnswer
    ensures { Coded (λ answer. Amortized (shape_from sizes.shape) (z_from sizes.one_digit sizes.b) c.now witness.now
        z.old answer z.new) result }
{
    if sizes.one_digit == 0 {
        capi::lizkarg_amortize(sizes.shape, sizes.b, c, witness, z)
    } else {
        capi::lizkarg_amortize_one_digit(sizes.shape, c, witness, z)
    }
}

fn amortize(
    stdout: Stdout,
    sizes: CSizes,
    lists: &[i32],
    witness: &[i32],
    lengths: &[i32],
    messages: &mut [i32],
) -> CAnswer
    ensures { Amortizing sizes lists.now witness.now lengths.now messages.old result
        messages.new }
{
    let mut room = [FILL; ROOM];
    let z = &mut room[..size(lengths, Z, ROOM)];
    let answer = call_amortize(sizes, nth_list(lists, 11), witness, z);
    print_answer(stdout, 1, answer);
    keep(stdout, messages, lengths, Z, z);
    answer
}

// The verdict on the messages.
fn verify(
    stdout: Stdout,
    sizes: CSizes,
    lists: &[i32],
    whole: &[i32],
    lengths: &[i32],
    messages: &[i32],
) -> CAnswer
    ensures { result ≡ verdict_of sizes lists.now whole.now lengths.now messages.now }
{
    let answer = capi::lizkarg_verify(
        sizes,
        nth_list(lists, 0),
        nth_list(lists, 1),
        nth_list(lists, 2),
        nth_list(lists, 3),
        whole,
        nth_list(lists, 5),
        message(messages, lengths, U1),
        nth_list(lists, 6),
        message(messages, lengths, P),
        nth_list(lists, 7),
        nth_list(lists, 8),
        message(messages, lengths, SECOND_B),
        nth_list(lists, 9),
        nth_list(lists, 10),
        message(messages, lengths, U2),
        nth_list(lists, 11),
        opening(messages, lengths),
    );
    print_answer(stdout, 1, answer);
    answer
}

// A fold: prints each message's answer and the sums of what it wrote, and the verdict, which it answers; a blank first where `place` is not 0.
pub fn run_fold(
    stdout: Stdout,
    place: usize,
    sizes: CSizes,
    lists: &[i32],
    whole: &[i32],
    witness: &[i32],
    lengths: &[i32],
    messages: &mut [i32],
) -> CAnswer
    ensures { Folded sizes lists.now whole.now witness.now lengths.now messages.old result
        messages.new }
{
    commit(stdout, place, sizes, lists, witness, lengths, messages);
    project(stdout, sizes, lists, witness, lengths, messages);
    aggregate(stdout, sizes, lists, witness, lengths, messages);
    commit_garbage(stdout, sizes, lists, whole, witness, lengths, messages);
    amortize(stdout, sizes, lists, witness, lengths, messages);
    verify(stdout, sizes, lists, whole, lengths, messages)
}
