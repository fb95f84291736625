// The ring product under its name for C.
ghost use Rattle.std.specs.Prelude.{◌≡◌};
ghost use Rattle.lizkarg.specs.Calls.{product_of};
ghost use Rattle.capi.specs.Codes.{product_code};

use capi::types::{CElement, CProduct};

#[unsafe(no_mangle)]
pub extern "C" fn lizkarg_multiply(d: usize, x: CElement, y: CElement) -> CProduct
    ensures { result ≡ product_code (product_of d x.coefficients y.coefficients) }
{
    capi::multiply::lizkarg_multiply(d, x, y)
}
