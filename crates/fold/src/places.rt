// Where the blocks of an opening start, whose z has tz digits.
ghost use Rattle.std.specs.Prelude.{◌≡◌, ◌≤◌};
ghost use Rattle.fold.specs.Opening.{t_place, g_place, h_place};
ghost use Rattle.fold.specs.Arguments.{VerifySized};

use crate::Sizes;
use crate::counts::{garbage_size, t_size};

pub fn t_place(tz: usize, sizes: Sizes) -> usize
    requires tz_bound { tz ≤ 2 }
    requires verify_sized { VerifySized sizes }
    ensures { result ≡ t_place tz sizes.shape.n }
{
    tz * sizes.shape.n
}

pub fn g_place(tz: usize, sizes: Sizes) -> usize
    requires tz_bound { tz ≤ 2 }
    requires verify_sized { VerifySized sizes }
    ensures { result ≡ g_place tz sizes.shape.n sizes.shape.r sizes.kappa sizes.t1 }
{
    let start = t_place(tz, sizes);
    let size = t_size(sizes.shape.r, sizes.kappa, sizes.t1);
    start + size
}

pub fn h_place(tz: usize, sizes: Sizes) -> usize
    requires tz_bound { tz ≤ 2 }
    requires verify_sized { VerifySized sizes }
    ensures { result ≡ h_place tz sizes.shape.n sizes.shape.r sizes.kappa sizes.t1 sizes.t2 }
{
    let start = g_place(tz, sizes);
    let size = garbage_size(sizes.shape.r, sizes.t2);
    start + size
}
