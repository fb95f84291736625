// How many numbers some lists of a sheet have.
ghost use Rattle.std.specs.Prelude.{◌≡◌, ◌*◌};
ghost use Rattle.fold.specs.Arguments.{VerifySized};
ghost use Rattle.fold.specs.Sizes.{z_count, t_size, garbage_size, opening_size};
ghost use Rattle.fold.specs.Refusals.{whole_length, constant_terms_length, projection_length};

use fold::Sizes;
use fold::counts::{Z_DIGITS, garbage_size, opening_size, t_size};
use limits::sizes;

pub fn a_matrix_length(s: Sizes) -> usize
    requires { VerifySized s }
    ensures { result ≡ s.kappa * s.shape.n * s.shape.d }
{
    sizes::flat_length(s.kappa, s.shape.n, s.shape.d)
}

pub fn b_matrix_length(s: Sizes) -> usize
    requires { VerifySized s }
    ensures { result ≡ s.kappa1 * t_size s.shape.r s.kappa s.t1 * s.shape.d }
{
    let columns = t_size(s.shape.r, s.kappa, s.t1);
    sizes::flat_length(s.kappa1, columns, s.shape.d)
}

pub fn c_matrix_length(s: Sizes) -> usize
    requires { VerifySized s }
    ensures { result ≡ s.kappa1 * garbage_size s.shape.r s.t2 * s.shape.d }
{
    let columns = garbage_size(s.shape.r, s.t2);
    sizes::flat_length(s.kappa1, columns, s.shape.d)
}

pub fn d_matrix_length(s: Sizes) -> usize
    requires { VerifySized s }
    ensures { result ≡ s.kappa2 * garbage_size s.shape.r s.t1 * s.shape.d }
{
    let columns = garbage_size(s.shape.r, s.t1);
    sizes::flat_length(s.kappa2, columns, s.shape.d)
}

pub fn whole_length(s: Sizes) -> usize
    requires { VerifySized s }
    ensures { result ≡ whole_length s.shape.d s.shape.n s.shape.r s.k }
{
    sizes::whole_length(s.shape.d, s.shape.n, s.shape.r, s.k)
}

pub fn constant_terms_length(s: Sizes) -> usize
    requires { VerifySized s }
    ensures { result ≡ constant_terms_length s.shape.d s.shape.n s.shape.r s.l }
{
    sizes::constant_terms_length(s.shape.d, s.shape.n, s.shape.r, s.l)
}

pub fn projections_length(s: Sizes) -> usize
    requires { VerifySized s }
    ensures { result ≡ projection_length s.shape.d s.shape.n s.shape.r s.w }
{
    sizes::projection_length(s.shape.d, s.shape.n, s.shape.r, s.w)
}

pub fn opening_length(s: Sizes) -> usize
    requires { VerifySized s }
    ensures { result ≡ opening_size z_count s.shape.n s.shape.r s.kappa s.t1 s.t2 * s.shape.d }
{
    let elements = opening_size(Z_DIGITS, s.shape.n, s.shape.r, s.kappa, s.t1, s.t2);
    sizes::list_length(elements, s.shape.d)
}
