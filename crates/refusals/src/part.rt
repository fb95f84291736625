// Whether the question for a part of the next witness is refused, and by which row.
ghost use Rattle.std.specs.Prelude.{◌≡◌, ◌<◌, ◌≤◌};
ghost use Rattle.fold.specs.Rows.{row_of, failure};
ghost use Rattle.fold.specs.Arguments.{part_refusal_with, part_refusal_of};

use crate::lengths::opening_fits;
use fold::PartSizes;
use fold::answers::{Refusal, require};
use fold::counts::count_if;
use limits::part::part_bounds;

// The tests of a part of an opening whose z has tz digits.
pub fn part_refusal(
    tz: usize,
    sizes: PartSizes,
    part: usize,
    opening: &[i32],
) -> Result<(), Refusal>
    requires { (0 < tz) × (tz ≤ 2) }
    ensures { failure row_of result ≡ part_refusal_with tz sizes part opening.now }
{
    part_bounds(tz, sizes, part)?;
    let fits = opening_fits(
        tz,
        sizes.shape.d,
        sizes.shape.n,
        sizes.shape.r,
        sizes.kappa,
        sizes.t1,
        sizes.t2,
        opening,
    );
    require(fits, Refusal::SliceLength)
}

// Whether part `part`, from 1, of the next witness is refused.
pub fn next_part_refusal(sizes: PartSizes, part: usize, opening: &[i32]) -> Result<(), Refusal>
    ensures { failure row_of result ≡ part_refusal_of sizes part opening.now }
{
    let tz = count_if(sizes.one_digit);
    part_refusal(tz, sizes, part, opening)
}
