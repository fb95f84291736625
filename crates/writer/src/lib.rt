// The writer of a sheet: SPECIFICATION 10. Every test comes before the first byte is written.
#![tactic(auto)]

ghost use Rattle.std.specs.Prelude.{◌≡◌};
ghost use Rattle.writer.specs.WriteAnswer.{wrote_of};
ghost use Rattle.writer.specs.Writing.{sheet_bytes, SheetWritten};

use fold::answers::Answer;
use fold::counts::Z_DIGITS;
use limits::next::next_bounds;
use sheet::header::SheetSizes;

mod bytes;
mod header;
mod lines;
mod refusal;

// How many bytes the text of these sizes has, which is the least buffer that `write_sheet` takes; 0 where they are refused.
pub fn sheet_bytes(s: SheetSizes) -> usize
    ensures { result ≡ sheet_bytes s }
{
    match next_bounds(Z_DIGITS, s.sizes, s.nu, s.mu) {
        Err(_) => return 0,
        Ok(()) => {}
    }
    bytes::text_bytes(s.sizes)
}

// Writes a sheet: its header's numbers and the numbers after them, of which there must be as many as the sizes give, as text to the front of
// `text`. What stands behind is left as it is; on a refusal all is.
pub fn write_sheet(s: SheetSizes, numbers: &[i32], text: &mut [u8]) -> Answer<usize>
    ensures { SheetWritten s numbers.now text.old (wrote_of result) text.new }
{
    refusal::write_refusal(s, numbers, text.len())?;
    header::write_header(s, text);
    lines::write_body(s.sizes, numbers, text);
    Ok(bytes::text_bytes(s.sizes))
}
