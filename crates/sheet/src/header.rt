// The header: its layout, its numbers as sizes, and their tests, which are those that the library makes of the same sizes.
ghost use Rattle.std.specs.Prelude.{◌≡◌};
ghost use Rattle.fold.specs.Rows.{row_of, failure};
ghost use Rattle.fold.specs.Answers.{first_failing};
ghost use Rattle.fields.specs.Place.{number_at};
ghost use Rattle.sheet.specs.Reading.{header_laid, header_numbers, front_tests, size, sheet_sizes_of};

use fields::sizes::Sections;
use fields::walk::{laid_end, number_at};
use fold::answers::{Refusal, require};
use fold::counts::Z_DIGITS;
use fold::{Shape, Sizes};
use limits::next::next_bounds;

// The header's numbers: the fold's sizes, and into how many chunks z and the rest are cut, ν and μ.
#[derive(Clone, Copy)]
pub struct SheetSizes {
    pub sizes: Sizes,
    pub nu: usize,
    pub mu: usize,
}

fn header_laid(text: &[u8]) -> bool
    ensures { result ≡ header_laid text.now }
{
    let line = Sections {
        d: 18,
        head: 18,
        period: 1,
        terms: 0,
        middle: 0,
        ones: 0,
    };
    laid_end(line, text, 0, 18).is_some()
}

// A number as a size: one below zero is past every limit.
fn size_of(x: i64) -> u64
    ensures { result ≡ size x }
{
    if x < 0 { u64::MAX } else { x as u64 }
}

fn bound_at(text: &[u8], at: usize) -> u64
    ensures { result ≡ size (number_at text.now at) }
{
    size_of(number_at(text, at))
}

fn size_at(text: &[u8], at: usize) -> usize
    ensures { result ≡ size (number_at text.now at) }
{
    bound_at(text, at) as usize
}

// The header's numbers as sizes.
pub fn sheet_sizes(text: &[u8]) -> SheetSizes
    ensures { result ≡ sheet_sizes_of (header_numbers text.now) }
{
    let sizes = Sizes {
        shape: Shape {
            d: size_at(text, 0),
            n: size_at(text, 16),
            r: size_at(text, 32),
        },
        k: size_at(text, 48),
        l: size_at(text, 64),
        w: size_at(text, 80),
        kappa: size_at(text, 96),
        kappa1: size_at(text, 112),
        kappa2: size_at(text, 128),
        b: size_at(text, 144),
        b1: size_at(text, 160),
        b2: size_at(text, 176),
        t1: size_at(text, 192),
        t2: size_at(text, 208),
        bound: bound_at(text, 256),
        target: bound_at(text, 272),
    };
    SheetSizes {
        sizes,
        nu: size_at(text, 224),
        mu: size_at(text, 240),
    }
}

// 12, then 1 to 6.
pub fn header_refusal(text: &[u8]) -> Result<(), Refusal>
    ensures { failure row_of result ≡ first_failing (front_tests text.now) }
{
    require(header_laid(text), Refusal::Layout)?;
    let s = sheet_sizes(text);
    next_bounds(Z_DIGITS, s.sizes, s.nu, s.mu)
}
