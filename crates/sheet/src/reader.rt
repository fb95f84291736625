// The reader of a sheet: SPECIFICATION 10. Every test comes before the first number is written.
ghost use Rattle.std.specs.Prelude.{◌≡◌, true, length};
ghost use Rattle.residues.specs.Range.{coefficients, projection_entries};
ghost use Rattle.fold.specs.Rows.{row_of, failure};
ghost use Rattle.fold.specs.Answers.{first_failing};
ghost use Rattle.fold.specs.Arguments.{VerifySized};
ghost use Rattle.fold.specs.Refusals.{challenges};
ghost use Rattle.fields.specs.Sections.{total};
ghost use Rattle.sheet.specs.SheetAnswer.{read_of};
ghost use Rattle.sheet.specs.Reading.{number_count, body_numbers, projections_in, challenges_in, number_tests, body_tests, reading_tests, SheetRead};
ghost use Rattle.sheet.specs.Known.Reading.{Inside};

use crate::header::{SheetSizes, header_refusal, sheet_sizes};
use fields::sizes::{HEADER_BYTES, challenges_from, projections_from, sections_of, total_numbers};
use fields::walk::{all_within, are_challenges, fill, laid_end, place_after};
use fold::Sizes;
use fold::answers::{Answer, Refusal, require};
use limits::sizes::projection_length;

// Row 9.
fn projections_ok(s: Sizes, text: &[u8]) -> bool
    requires { Inside s text.now }
    ensures { result ≡ projection_entries (projections_in s (body_numbers s text.now)) }
{
    let q = sections_of(s);
    let from = projections_from(s);
    let start = place_after(q, text, 0, HEADER_BYTES, from);
    let count = projection_length(s.shape.d, s.shape.n, s.shape.r, s.w);
    all_within(q, text, from, start, count, 1)
}

// Row 10.
fn challenges_ok(s: Sizes, text: &[u8]) -> bool
    requires inside { Inside s text.now }
    requires text_value { coefficients (body_numbers s text.now) ≡ true }
    ensures { result ≡ challenges s.shape.d s.shape.r (challenges_in s (body_numbers s text.now)) }
{
    let q = sections_of(s);
    let from = challenges_from(s);
    let start = place_after(q, text, 0, HEADER_BYTES, from);
    are_challenges(q, text, from, start, s.shape.d, s.shape.r)
}

// Row 8.
fn numbers_ok(s: Sizes, text: &[u8]) -> bool
    requires { Inside s text.now }
    ensures { result ≡ coefficients (body_numbers s text.now) }
{
    all_within(
        sections_of(s),
        text,
        0,
        HEADER_BYTES,
        total_numbers(s),
        2147483598,
    )
}

// Rows 8 to 10.
fn number_refusal(s: Sizes, text: &[u8]) -> Result<(), Refusal>
    requires { Inside s text.now }
    ensures { failure row_of result ≡ first_failing (number_tests s (body_numbers s text.now)) }
{
    require(numbers_ok(s, text), Refusal::Coefficient)?;
    require(projections_ok(s, text), Refusal::ProjectionEntry)?;
    require(challenges_ok(s, text), Refusal::Challenge)
}

// The other lines, and the numbers on them.
fn body_refusal(s: Sizes, text: &[u8], room: usize) -> Result<(), Refusal>
    requires { VerifySized s }
    ensures { failure row_of result ≡ first_failing (body_tests room s text.now) }
{
    let q = sections_of(s);
    let count = total_numbers(s);
    let laid = laid_end(q, text, HEADER_BYTES, count) == Some(text.len());
    require(laid, Refusal::Layout)?;
    require(room == count, Refusal::SliceLength)?;
    number_refusal(s, text)
}

// Every test, for a slice of `room` numbers.
fn sheet_refusal(text: &[u8], room: usize) -> Result<(), Refusal>
    ensures { failure row_of result ≡ first_failing (reading_tests room text.now) }
{
    header_refusal(text)?;
    body_refusal(sheet_sizes(text).sizes, text, room)
}

// How many numbers the header's sizes give, which is the length of the slice that `read_sheet` takes; 0 where the header is refused.
pub fn sheet_numbers(text: &[u8]) -> usize
    ensures { result ≡ number_count text.now }
{
    match header_refusal(text) {
        Err(_) => return 0,
        Ok(()) => {}
    }
    total_numbers(sheet_sizes(text).sizes)
}

// The numbers after the header, in the sheet's order.
fn store(s: Sizes, text: &[u8], numbers: &mut [i32])
    requires inside { Inside s text.now }
    requires text_value { coefficients (body_numbers s text.now) ≡ true }
    requires numbers_len { length numbers.old ≡ total s }
    ensures { numbers.new ≡ body_numbers s text.now }
{
    fill(
        sections_of(s),
        text,
        0,
        HEADER_BYTES,
        total_numbers(s),
        numbers,
    );
}

// Reads a sheet: the sizes, and in `numbers` all numbers after the header, which it must have room for exactly. On a refusal they are
// left as they are.
pub fn read_sheet(text: &[u8], numbers: &mut [i32]) -> Answer<SheetSizes>
    ensures { SheetRead text.now numbers.old (read_of result) numbers.new }
{
    sheet_refusal(text, numbers.len())?;
    let s = sheet_sizes(text);
    store(s.sizes, text, numbers);
    Ok(s)
}
