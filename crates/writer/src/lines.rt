// The lines after the header.
ghost use Rattle.std.specs.Prelude.{◌≡◌, ◌<◌, pos, length, get_or};
ghost use Rattle.integers.specs.Over.{over};
ghost use Rattle.fields.specs.Field.{header_bytes};
ghost use Rattle.fields.specs.Sections.{ends_line, sections_of};
ghost use Rattle.fields.specs.Place.{line_fields};
ghost use Rattle.sheet.specs.Layout.{text_of, body_lines};
ghost use Rattle.writer.specs.Known.Writing.{Counted, LinesFit};

use fields::sizes::{HEADER_BYTES, Sections, ends_line, sections_of};
use fields::walk::field_width;
use fields::write::write_laid;
use fold::Sizes;
use residues::range::magnitude;

// All numbers, each followed by a line feed where a line ends.
fn write_lines(q: Sections, numbers: &[i32], text: &mut [u8])
    requires d_nonzero { (0 < q.d) × (0 < q.period) }
    requires lines_fit { LinesFit (ends_line q) (length numbers.now) text.old }
    ensures { text.new ≡ over text.old header_bytes
        (line_fields (ends_line q) (λ i. get_or numbers.now i (pos 0)) (length numbers.now)) }
{
    let mut here = HEADER_BYTES;
    for (i, x) in numbers.iter().enumerate() {
        let last = ends_line(q, i);
        write_laid(text, here, *x < 0, magnitude(*x), last);
        here += field_width(last);
    }
}

// The lines that the sizes give.
pub fn write_body(s: Sizes, numbers: &[i32], text: &mut [u8])
    requires counted { Counted s numbers.now }
    requires lines_fit { LinesFit (ends_line (sections_of s)) (length numbers.now) text.old }
    ensures { text.new ≡ over text.old header_bytes (text_of (body_lines s) numbers.now) }
{
    write_lines(sections_of(s), numbers, text);
}
