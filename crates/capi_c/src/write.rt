// The writer of a sheet under its names for C.
ghost use Rattle.std.specs.Prelude.{◌≡◌};
ghost use Rattle.writer.specs.Writing.{sheet_bytes};
ghost use Rattle.capi.specs.Codes.{sheet_sizes_from, TextCoded};

use capi::sizes::CSizes;
use capi::write::CText;

#[unsafe(no_mangle)]
pub extern "C" fn lizkarg_sheet_bytes(sizes: CSizes, nu: usize, mu: usize) -> usize
    ensures { result ≡ sheet_bytes (record { sizes = sheet_sizes_from sizes; nu = nu; mu = mu }) }
{
    capi::write::lizkarg_sheet_bytes(sizes, nu, mu)
}

#[unsafe(no_mangle)]
pub extern "C" fn lizkarg_write_sheet(
    sizes: CSizes,
    nu: usize,
    mu: usize,
    numbers: &[i32],
    text: &mut [u8],
) -> CText
    ensures { TextCoded (record { sizes = sheet_sizes_from sizes; nu = nu; mu = mu }) numbers.now text.old result text.new }
{
    capi::write::lizkarg_write_sheet(sizes, nu, mu, numbers, text)
}
