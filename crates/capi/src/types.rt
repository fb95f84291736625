// What C is answered: kind and number, and what comes with them.
ghost use Rattle.std.specs.Prelude.{◌≡◌};
ghost use Rattle.sheet.specs.Reading.{empty_header};
ghost use Rattle.sheet.specs.SheetAnswer.{read_of};
ghost use Rattle.lizkarg.specs.Calls.{product_in};
ghost use Rattle.capi.specs.Codes.{c_answer, product_code, header_code, sheet_code};

use fold::answers::{Answer, Code};
use ring::element::Element;
use sheet::header::SheetSizes;

// An answer: kind 0 accepted, 1 failed, 2 refused, 3 written; the margin, the number of the check or that of the refusal, else 0.
#[repr(C)]
#[derive(Clone, Copy)]
pub struct CAnswer {
    pub kind: u8,
    pub number: u64,
}

// A sheet's header, in its order; `bound` is β² and `target` is β'².
#[repr(C)]
#[derive(Clone, Copy)]
pub struct CHeader {
    pub d: usize,
    pub n: usize,
    pub r: usize,
    pub k: usize,
    pub l: usize,
    pub w: usize,
    pub kappa: usize,
    pub kappa1: usize,
    pub kappa2: usize,
    pub b: usize,
    pub b1: usize,
    pub b2: usize,
    pub t1: usize,
    pub t2: usize,
    pub nu: usize,
    pub mu: usize,
    pub bound: u64,
    pub target: u64,
}

// An answer and a sheet's header, whose numbers are all 0 where the sheet is refused.
#[repr(C)]
#[derive(Clone, Copy)]
pub struct CSheet {
    pub kind: u8,
    pub number: u64,
    pub header: CHeader,
}

// A ring element: sixty-four numbers, lowest power first, those past d zero.
#[repr(C)]
#[derive(Clone, Copy)]
pub struct CElement {
    pub coefficients: [i32; 64],
}

// An answer and a ring element, which is zero where the call is refused.
#[repr(C)]
#[derive(Clone, Copy)]
pub struct CProduct {
    pub kind: u8,
    pub number: u64,
    pub element: CElement,
}

// An answer's code.
pub fn code(answer: Code) -> CAnswer
    ensures { result ≡ c_answer answer }
{
    CAnswer {
        kind: answer.kind,
        number: answer.number,
    }
}

pub fn product_code(product: Answer<Element>) -> CProduct
    ensures { result ≡ product_code (product_in product) }
{
    match product {
        Ok(element) => {
            let Code { kind, number } = Code::WRITTEN;
            let Element { coefficients } = element;
            CProduct {
                kind,
                number,
                element: CElement { coefficients },
            }
        }
        Err(refusal) => {
            let Code { kind, number } = Code::refused(refusal);
            let coefficients = [0i32; 64];
            CProduct {
                kind,
                number,
                element: CElement { coefficients },
            }
        }
    }
}

// The numbers of a header.
fn header_code(h: SheetSizes) -> CHeader
    ensures { result ≡ header_code h }
{
    CHeader {
        d: h.sizes.shape.d,
        n: h.sizes.shape.n,
        r: h.sizes.shape.r,
        k: h.sizes.k,
        l: h.sizes.l,
        w: h.sizes.w,
        kappa: h.sizes.kappa,
        kappa1: h.sizes.kappa1,
        kappa2: h.sizes.kappa2,
        b: h.sizes.b,
        b1: h.sizes.b1,
        b2: h.sizes.b2,
        t1: h.sizes.t1,
        t2: h.sizes.t2,
        nu: h.nu,
        mu: h.mu,
        bound: h.sizes.bound,
        target: h.sizes.target,
    }
}

// The header of a refused sheet.
fn empty_header() -> CHeader
    ensures { result ≡ header_code empty_header }
{
    CHeader {
        d: 0,
        n: 0,
        r: 0,
        k: 0,
        l: 0,
        w: 0,
        kappa: 0,
        kappa1: 0,
        kappa2: 0,
        b: 0,
        b1: 0,
        b2: 0,
        t1: 0,
        t2: 0,
        nu: 0,
        mu: 0,
        bound: 0,
        target: 0,
    }
}

pub fn sheet_code(answer: Answer<SheetSizes>) -> CSheet
    ensures { result ≡ sheet_code (read_of answer) }
{
    match answer {
        Ok(header) => CSheet {
            kind: 3,
            number: 0,
            header: header_code(header),
        },
        Err(refusal) => CSheet {
            kind: 2,
            number: refusal.number() as u64,
            header: empty_header(),
        },
    }
}
