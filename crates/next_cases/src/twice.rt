// Kind 3, a fold and the fold of its next instance.
ghost use Rattle.std.specs.Prelude.{◌≡◌, ◌*◌, pos};
ghost use Rattle.cases.specs.Numbers.{size_of};
ghost use Rattle.next_cases.specs.Runs.{NextOfFold, FirstRun, SecondRun, TwiceRun};
ghost use Rattle.next_cases.specs.Witness.{witness_of};

use crate::folds::run_fold;
use crate::input::{LISTS, ROOM, SIZE_COUNT, fitting, read_sizes};
use crate::messages::{P, SECOND_B, U1, U2, message, opening};
use crate::output::print_answer;
use crate::part::part_sizes;
use crate::witness::write_witness;
use capi::next::lizkarg_next_instance;
use capi::sizes::{CPartSizes, CSizes};
use capi::types::CAnswer;
use cases::input::FILL;
use cases::lists::{nth_list, past_lists, past_numbers, past_wides};
use cases::numbers::size;
use cases::sums::print_sum;
use std::io::Stdout;

// The next instance after a fold, whose parameters are those of module folds.
fn print_next(
    stdout: Stdout,
    sizes: CSizes,
    nu: usize,
    mu: usize,
    lists: &[i32],
    whole: &[i32],
    lengths: &[i32],
    messages: &[i32],
    out: &mut [i32],
) -> CAnswer
    ensures { NextOfFold sizes nu mu lists.now whole.now lengths.now messages.now
        out.old result out.new }
{
    let answer = lizkarg_next_instance(
        sizes,
        nu,
        mu,
        nth_list(lists, 0),
        nth_list(lists, 1),
        nth_list(lists, 2),
        nth_list(lists, 3),
        whole,
        nth_list(lists, 5),
        message(messages, lengths, U1),
        nth_list(lists, 6),
        message(messages, lengths, P),
        nth_list(lists, 7),
        nth_list(lists, 8),
        message(messages, lengths, SECOND_B),
        nth_list(lists, 9),
        nth_list(lists, 10),
        message(messages, lengths, U2),
        nth_list(lists, 11),
        out,
    );
    print_answer(stdout, 1, answer);
    print_sum(stdout, out);
    answer
}

// The first fold, of its own whole functions and witness, and its next instance.
fn run_first(
    stdout: Stdout,
    sizes: CSizes,
    nu: usize,
    mu: usize,
    lists: &[i32],
    lengths: &[i32],
    messages: &mut [i32],
    out: &mut [i32],
)
    ensures { FirstRun sizes nu mu lists.now lengths.now messages.old messages.new
        out.old out.new }
{
    let whole = nth_list(lists, 4);
    let witness = nth_list(lists, 12);
    run_fold(stdout, 0, sizes, lists, whole, witness, lengths, messages);
    print_next(stdout, sizes, nu, mu, lists, whole, lengths, messages, out);
}

// A product of sizes; 0 where one passes what a list can have.
fn product(x: usize, y: usize) -> usize
    ensures { result ≡ size_of 32768 (pos x) * size_of 32768 (pos y) }
{
    fitting(x) * fitting(y)
}

// The second fold; the lengths stand after its lists.
fn run_second(
    stdout: Stdout,
    sizes: CSizes,
    whole: &[i32],
    witness: &[i32],
    lists: &[i32],
) -> CAnswer
    ensures { SecondRun sizes whole.now witness.now lists.now result }
{
    let lengths = past_lists(lists, 13);
    let mut messages = [FILL; ROOM];
    print_sum(stdout, witness);
    run_fold(
        stdout,
        1,
        sizes,
        lists,
        whole,
        witness,
        lengths,
        &mut messages,
    )
}

// The next witness from the first fold's opening, and the second fold. The witness has as many parts as the sizes say.
fn with_witness(
    stdout: Stdout,
    first: CPartSizes,
    sizes: CSizes,
    opening: &[i32],
    whole: &[i32],
    lists: &[i32],
) -> CAnswer
    ensures { SecondRun sizes whole.now (witness_of first sizes opening.now) lists.now result }
{
    let width = product(sizes.shape.n, sizes.shape.d);
    let count = fitting(product(sizes.shape.r, width));
    let mut room = [FILL; ROOM];
    let witness = &mut room[..count];
    write_witness(first, sizes.shape.r, width, opening, witness);
    run_second(stdout, sizes, whole, witness, lists)
}

// The first fold's lists and lengths, that of the next constraints among them; the second fold's sizes, lists and lengths.
pub fn run_twice(
    stdout: Stdout,
    sizes: CSizes,
    nu: usize,
    mu: usize,
    wides: &[i64],
    xs: &[i32],
) -> CAnswer
    ensures { TwiceRun sizes nu mu wides.now xs.now result }
{
    let lists = past_numbers(xs, LISTS);
    let lengths = past_lists(lists, 13);
    let count = size(lengths, 8, ROOM);
    let second = past_numbers(lengths, 9);
    let second_sizes = read_sizes(past_wides(wides, xs.len() - second.len()), 0);
    let mut messages = [FILL; ROOM];
    let mut room = [FILL; ROOM];
    let whole = &mut room[..count];
    run_first(stdout, sizes, nu, mu, lists, lengths, &mut messages, whole);
    with_witness(
        stdout,
        part_sizes(sizes, nu, mu),
        second_sizes,
        opening(&messages, lengths),
        whole,
        past_numbers(second, SIZE_COUNT),
    )
}
