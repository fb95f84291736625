// The writer of a sheet for C.
ghost use Rattle.std.specs.Prelude.{◌≡◌};
ghost use Rattle.writer.specs.WriteAnswer.{wrote_of};
ghost use Rattle.writer.specs.Writing.{sheet_bytes};
ghost use Rattle.capi.specs.Codes.{sheet_sizes_from, text_code, TextCoded};

use crate::sizes::CSizes;
use fold::Sizes;
use fold::answers::Answer;
use sheet::header::SheetSizes;

// An answer and the text's length in bytes, which is 0 where the call is refused.
#[repr(C)]
#[derive(Clone, Copy)]
pub struct CText {
    pub kind: u8,
    pub number: u64,
    pub length: usize,
}

fn text_code(answer: Answer<usize>) -> CText
    ensures { result ≡ text_code (wrote_of answer) }
{
    match answer {
        Ok(length) => CText {
            kind: 3,
            number: 0,
            length,
        },
        Err(refusal) => CText {
            kind: 2,
            number: refusal.number() as u64,
            length: 0,
        },
    }
}

// How many bytes a sheet has: `lizkarg::sheet_bytes`.
pub fn lizkarg_sheet_bytes(sizes: CSizes, nu: usize, mu: usize) -> usize
    ensures { result ≡ sheet_bytes (record { sizes = sheet_sizes_from sizes; nu = nu; mu = mu }) }
{
    let given = Sizes::from(sizes);
    lizkarg::sheet_bytes(SheetSizes {
        sizes: given,
        nu,
        mu,
    })
}

// The writer: `lizkarg::write_sheet`.
pub fn lizkarg_write_sheet(
    sizes: CSizes,
    nu: usize,
    mu: usize,
    numbers: &[i32],
    text: &mut [u8],
) -> CText
    ensures { TextCoded (record { sizes = sheet_sizes_from sizes; nu = nu; mu = mu }) numbers.now text.old result text.new }
{
    let given = Sizes::from(sizes);
    let answer = lizkarg::write_sheet(
        SheetSizes {
            sizes: given,
            nu,
            mu,
        },
        numbers,
        text,
    );
    text_code(answer)
}
