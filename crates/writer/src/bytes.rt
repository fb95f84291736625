// How many bytes a sheet has.
ghost use Rattle.std.specs.Prelude.{◌≡◌};
ghost use Rattle.fold.specs.Arguments.{VerifySized};
ghost use Rattle.writer.specs.Writing.{element_lines, text_bytes};

use fields::sizes::{HEADER_BYTES, last_count, matrix_count, row_count, whole_count};
use fold::Sizes;
use fold::counts::function_size;

// The lines of d numbers after the header.
fn element_lines(s: Sizes) -> usize
    requires { VerifySized s }
    ensures { result ≡ element_lines s }
{
    let terms = s.l * function_size(s.shape.n, s.shape.r);
    matrix_count(s) + (whole_count(s) + (terms + (row_count(s) + last_count(s))))
}

// The bytes of the header, of those lines, and of the lines of one number.
pub fn text_bytes(s: Sizes) -> usize
    requires { VerifySized s }
    ensures { result ≡ text_bytes s }
{
    let line = 16 * s.shape.d + 1;
    let ones = 6 * (s.l + s.w);
    HEADER_BYTES + (line * element_lines(s) + 17 * ones)
}
