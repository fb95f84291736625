// Lists among the numbers of a case: each is its length and its numbers. One that does not fit counts as empty.
ghost use Rattle.std.specs.Prelude.{◌≡◌, ◌+◌, ◌-◌, ◌≤◌, min, length, drop};
ghost use Rattle.integers.specs.Over.{over};
ghost use Rattle.cases.specs.Numbers.{padded};
ghost use Rattle.cases.specs.Lists.{first_size, first_list, past_list, past_lists, nth_list};

use crate::numbers::{number_at, size};

// What follows the first numbers.
pub fn past_numbers(xs: &[i32], count: usize) -> &[i32]
    ensures { result.now ≡ drop count xs.now }
{
    &xs[count.min(xs.len())..]
}

// The same where the numbers have all their bits.
pub fn past_wides(xs: &[i64], count: usize) -> &[i64]
    ensures { result.now ≡ drop count xs.now }
{
    &xs[count.min(xs.len())..]
}

// How many numbers the first list has.
fn first_size(xs: &[i32]) -> usize
    ensures { result ≡ first_size xs.now }
{
    size(xs, 0, xs.len().saturating_sub(1))
}

// The first list.
fn first_list(xs: &[i32]) -> &[i32]
    ensures { result.now ≡ first_list xs.now }
{
    &past_numbers(xs, 1)[..first_size(xs)]
}

// What follows the first list.
fn past_list(xs: &[i32]) -> &[i32]
    ensures { result.now ≡ past_list xs.now }
{
    past_numbers(xs, 1 + first_size(xs))
}

// What follows the first `count` lists.
pub fn past_lists(xs: &[i32], count: usize) -> &[i32]
    ensures { result.now ≡ past_lists count xs.now }
{
    let mut rest = xs;
    for _i in 0..count {
        rest = past_list(rest);
    }
    rest
}

// The list that follows the first `before` lists.
pub fn nth_list(xs: &[i32], before: usize) -> &[i32]
    ensures { result.now ≡ nth_list before xs.now }
{
    first_list(past_lists(xs, before))
}

// Puts `width` numbers into a list, from `at` on: those of the part, and zeros after them. The answer is the place after them; nothing is
// put past the list's end.
pub fn put(out: &mut [i32], at: usize, part: &[i32], width: usize) -> usize
    requires { at ≤ length out.old }
    ensures { (result ≡ at + min width (length out.old - at))
        × (out.new ≡ over out.old at (padded (min width (length out.old - at)) part.now)) }
{
    let end = at + width.min(out.len() - at);
    for (i, number) in out[at..end].iter_mut().enumerate() {
        *number = number_at(part, i);
    }
    end
}
