// Whether the writer refuses, and by which row.
ghost use Rattle.std.specs.Prelude.{◌≡◌, length};
ghost use Rattle.fold.specs.Rows.{row_of, failure};
ghost use Rattle.fold.specs.Answers.{first_failing};
ghost use Rattle.fold.specs.Arguments.{VerifySized};
ghost use Rattle.sheet.specs.Reading.{number_tests, slice_tests};
ghost use Rattle.writer.specs.Writing.{writing_tests};
ghost use Rattle.writer.specs.Known.Writing.{Counted};

use crate::bytes::text_bytes;
use fields::sizes::{challenges_from, projections_from, total_numbers};
use fold::Sizes;
use fold::answers::{Refusal, require};
use fold::counts::Z_DIGITS;
use limits::next::next_bounds;
use limits::sizes::{list_length, projection_length};
use refusals::ranges::challenges;
use residues::range::{are_coefficients, are_projection_entries};
use sheet::header::SheetSizes;

// Rows 8 to 10.
fn number_refusal(s: Sizes, numbers: &[i32]) -> Result<(), Refusal>
    requires { Counted s numbers.now }
    ensures { failure row_of result ≡ first_failing (number_tests s numbers.now) }
{
    let rows_start = projections_from(s);
    let rows_end = rows_start + projection_length(s.shape.d, s.shape.n, s.shape.r, s.w);
    let c_start = challenges_from(s);
    let c_end = c_start + list_length(s.shape.r, s.shape.d);
    require(are_coefficients(numbers), Refusal::Coefficient)?;
    let entries = are_projection_entries(&numbers[rows_start..rows_end]);
    require(entries, Refusal::ProjectionEntry)?;
    let rule = challenges(s.shape.d, s.shape.r, &numbers[c_start..c_end]);
    require(rule, Refusal::Challenge)
}

// Rows 7 to 10.
fn slice_refusal(s: Sizes, numbers: &[i32]) -> Result<(), Refusal>
    requires { VerifySized s }
    ensures { failure row_of result ≡ first_failing (slice_tests (length numbers.now) s numbers.now) }
{
    require(numbers.len() == total_numbers(s), Refusal::SliceLength)?;
    number_refusal(s, numbers)
}

// Every test, for a buffer of `room` bytes.
pub fn write_refusal(s: SheetSizes, numbers: &[i32], room: usize) -> Result<(), Refusal>
    ensures { failure row_of result ≡ first_failing (writing_tests room s numbers.now) }
{
    next_bounds(Z_DIGITS, s.sizes, s.nu, s.mu)?;
    slice_refusal(s.sizes, numbers)?;
    require(text_bytes(s.sizes) <= room, Refusal::Buffer)
}
