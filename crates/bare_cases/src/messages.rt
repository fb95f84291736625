// The calls that write messages. For each: one function makes the call on the case's lists and prints its answer and the list that it
// wrote, and one makes room for this.
ghost use Rattle.std.specs.Prelude.{◌≡◌};
ghost use Rattle.bare.specs.Arguments.{constraint_sizes_of};
ghost use Rattle.bare.specs.Calls.{BareCommitted, BarePhiFormed, BareTurned};
ghost use Rattle.capi.specs.Codes.{Coded, code_of, shape_from, bare_sizes_from};
ghost use Rattle.cases.specs.Lists.{nth_list};
ghost use Rattle.bare_cases.specs.Answers.{commit_answer, phi_answer, turn_answer};

use crate::input::constraint_sizes;
use crate::output::print_answer;
use capi::bare_level;
use capi::sizes::CBareSizes;
use capi::types::CAnswer;
use cases::input::{FILL, ROOM, count_at};
use cases::lists::{nth_list, past_lists};
use cases::printing::print_list;
use std::io::Stdout;

// Call 1: A, the witness; t.
fn commit(stdout: Stdout, sizes: CBareSizes, lists: &[i32], t: &mut [i32]) -> CAnswer
    ensures { Coded (λ answer. BareCommitted (shape_from sizes.shape) sizes.kappa (nth_list 0 lists.now) (nth_list 1 lists.now)
        t.old answer t.new) result }
{
    let answer = bare_level::lizkarg_bare_commit(
        sizes.shape,
        sizes.kappa,
        nth_list(lists, 0),
        nth_list(lists, 1),
        t,
    );
    print_answer(stdout, answer);
    print_list(stdout, t);
    answer
}

pub fn run_commit(stdout: Stdout, sizes: CBareSizes, lists: &[i32]) -> CAnswer
    ensures { result ≡ code_of (commit_answer sizes lists.now) }
{
    let mut room = [FILL; ROOM];
    let t = &mut room[..count_at(past_lists(lists, 2), 0)];
    commit(stdout, sizes, lists, t)
}

// Call 2: the whole and the constant-term functions, the rows, psi, omega, alpha, delta; φ.
fn form_phi(stdout: Stdout, sizes: CBareSizes, lists: &[i32], phi: &mut [i32]) -> CAnswer
    ensures { Coded (λ answer. BarePhiFormed (constraint_sizes_of (bare_sizes_from sizes)) (nth_list 0 lists.now) (nth_list 1 lists.now)
        (nth_list 2 lists.now) (nth_list 3 lists.now) (nth_list 4 lists.now) (nth_list 5 lists.now)
        (nth_list 6 lists.now) phi.old answer phi.new) result }
{
    let answer = bare_level::lizkarg_bare_phi(
        constraint_sizes(sizes),
        nth_list(lists, 0),
        nth_list(lists, 1),
        nth_list(lists, 2),
        nth_list(lists, 3),
        nth_list(lists, 4),
        nth_list(lists, 5),
        nth_list(lists, 6),
        phi,
    );
    print_answer(stdout, answer);
    print_list(stdout, phi);
    answer
}

pub fn run_phi(stdout: Stdout, sizes: CBareSizes, lists: &[i32]) -> CAnswer
    ensures { result ≡ code_of (phi_answer sizes lists.now) }
{
    let mut room = [FILL; ROOM];
    let phi = &mut room[..count_at(past_lists(lists, 7), 0)];
    form_phi(stdout, sizes, lists, phi)
}

// Call 3: φ, the earlier challenges, the witness; the turn's garbage.
fn take_turn(
    stdout: Stdout,
    sizes: CBareSizes,
    turn: usize,
    lists: &[i32],
    garbage: &mut [i32],
) -> CAnswer
    ensures { Coded (λ answer. BareTurned (shape_from sizes.shape) turn (nth_list 0 lists.now) (nth_list 1 lists.now)
        (nth_list 2 lists.now) garbage.old answer garbage.new) result }
{
    let answer = bare_level::lizkarg_bare_turn(
        sizes.shape,
        turn,
        nth_list(lists, 0),
        nth_list(lists, 1),
        nth_list(lists, 2),
        garbage,
    );
    print_answer(stdout, answer);
    print_list(stdout, garbage);
    answer
}

pub fn run_turn(stdout: Stdout, sizes: CBareSizes, turn: usize, lists: &[i32]) -> CAnswer
    ensures { result ≡ code_of (turn_answer sizes turn lists.now) }
{
    let mut room = [FILL; ROOM];
    let garbage = &mut room[..count_at(past_lists(lists, 3), 0)];
    take_turn(stdout, sizes, turn, lists, garbage)
}
