// The ring product for C: `lizkarg::multiply`.
ghost use Rattle.std.specs.Prelude.{◌≡◌};
ghost use Rattle.lizkarg.specs.Calls.{product_of};
ghost use Rattle.capi.specs.Codes.{product_code};

use crate::types;
use crate::types::{CElement, CProduct};
use ring::element::Element;

pub fn lizkarg_multiply(d: usize, x: CElement, y: CElement) -> CProduct
    ensures { result ≡ product_code (product_of d x.coefficients y.coefficients) }
{
    let a = x.coefficients;
    let b = y.coefficients;
    let product = lizkarg::multiply(d, Element { coefficients: a }, Element { coefficients: b });
    types::product_code(product)
}
