// Kind 1, the next instance.
ghost use Rattle.next_cases.specs.Runs.{NextOfLists, InstanceRun};

use crate::input::{LISTS, ROOM};
use crate::output::print_answer;
use capi::next::lizkarg_next_instance;
use capi::sizes::CSizes;
use capi::types::CAnswer;
use cases::input::FILL;
use cases::lists::{nth_list, past_lists, past_numbers};
use cases::numbers::size;
use cases::sums::print_shown;
use std::io::Stdout;

// The call on A, B, C, D, the whole and the constant-term functions, u1, the rows, p, psi, omega, b'', alpha, delta, u2, the challenges.
fn print_instance(
    stdout: Stdout,
    sizes: CSizes,
    nu: usize,
    mu: usize,
    lists: &[i32],
    out: &mut [i32],
) -> CAnswer
    ensures { NextOfLists sizes nu mu lists.now out.old result out.new }
{
    let answer = lizkarg_next_instance(
        sizes,
        nu,
        mu,
        nth_list(lists, 0),
        nth_list(lists, 1),
        nth_list(lists, 2),
        nth_list(lists, 3),
        nth_list(lists, 4),
        nth_list(lists, 5),
        nth_list(lists, 6),
        nth_list(lists, 7),
        nth_list(lists, 8),
        nth_list(lists, 9),
        nth_list(lists, 10),
        nth_list(lists, 11),
        nth_list(lists, 12),
        nth_list(lists, 13),
        nth_list(lists, 14),
        nth_list(lists, 15),
        out,
    );
    print_answer(stdout, 0, answer);
    print_shown(stdout, out);
    answer
}

// The sixteen lists of the call, and the length of the list to write.
pub fn run_instance(stdout: Stdout, sizes: CSizes, nu: usize, mu: usize, xs: &[i32]) -> CAnswer
    ensures { InstanceRun sizes nu mu xs.now result }
{
    let lists = past_numbers(xs, LISTS);
    let count = size(past_lists(lists, 16), 0, ROOM);
    let mut out = [FILL; ROOM];
    print_instance(stdout, sizes, nu, mu, lists, &mut out[..count])
}
