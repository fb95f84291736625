// The header's line.
ghost use Rattle.std.specs.Prelude.{◌≡◌, ◌≤◌, length};
ghost use Rattle.integers.specs.Over.{over};
ghost use Rattle.fields.specs.Field.{header_bytes};
ghost use Rattle.sheet.specs.Layout.{line_text};
ghost use Rattle.writer.specs.Writing.{header_words, header_fields};

use fields::write::write_laid;
use sheet::header::SheetSizes;

// The header's numbers, in its order.
fn header_words(h: SheetSizes) -> [u64; 18]
    ensures { result ≡ header_words h }
{
    let s = h.sizes;
    [
        s.shape.d as u64,
        s.shape.n as u64,
        s.shape.r as u64,
        s.k as u64,
        s.l as u64,
        s.w as u64,
        s.kappa as u64,
        s.kappa1 as u64,
        s.kappa2 as u64,
        s.b as u64,
        s.b1 as u64,
        s.b2 as u64,
        s.t1 as u64,
        s.t2 as u64,
        h.nu as u64,
        h.mu as u64,
        s.bound,
        s.target,
    ]
}

// The first 289 bytes become the header.
pub fn write_header(h: SheetSizes, text: &mut [u8])
    requires { header_bytes ≤ length text.old }
    ensures { text.new ≡ over text.old 0 (line_text (header_fields h)) }
{
    let words = header_words(h);
    for (k, word) in words.iter().enumerate() {
        write_laid(text, 16 * k, false, *word, k + 1 == 18);
    }
}
