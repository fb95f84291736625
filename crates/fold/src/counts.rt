// How many elements the sizes give. Within the limits of rows 1 to 4, and for at most two digits of z, no product wraps.
ghost use Rattle.std.specs.Prelude.{◌≡◌, ◌≤◌};
ghost use Rattle.fold.specs.Sizes.{count_if, pairs, function_size, t_size, garbage_size, opening_size};
ghost use Rattle.fold.specs.Limits.{most_commitment_rank, most_digits, most_parts, most_rank};

// The number of z digits of a sheet: "The sheet keeps two digits". Functions take it as tz.
pub const Z_DIGITS: usize = 2;

// The number of z digits by whether there is one.
pub fn count_if(one_digit: bool) -> usize
    ensures { result ≡ count_if one_digit }
{
    if one_digit { 1 } else { 2 }
}

// The number of pairs i ≤ j of r parts.
pub fn pair_count(r: usize) -> usize
    requires { r ≤ most_parts }
    ensures { result ≡ pairs r }
{
    r * (r + 1) / 2
}

// Elements of the a and φ of a constraint.
pub fn function_size(n: usize, r: usize) -> usize
    requires { (n ≤ most_rank) × (r ≤ most_parts) }
    ensures { result ≡ function_size n r }
{
    pair_count(r) + r * n
}

// Elements of the t digits.
pub fn t_size(r: usize, kappa: usize, t1: usize) -> usize
    requires { (r ≤ most_parts) × (kappa ≤ most_commitment_rank) × (t1 ≤ most_digits) }
    ensures { result ≡ t_size r kappa t1 }
{
    r * (t1 * kappa)
}

// Elements of the g or h digits.
pub fn garbage_size(r: usize, t: usize) -> usize
    requires { (r ≤ most_parts) × (t ≤ most_digits) }
    ensures { result ≡ garbage_size r t }
{
    pair_count(r) * t
}

// Elements of an opening whose z has tz digits.
pub fn opening_size(tz: usize, n: usize, r: usize, kappa: usize, t1: usize, t2: usize) -> usize
    requires { (tz ≤ 2) × (n ≤ most_rank) × (r ≤ most_parts) × (kappa ≤ most_commitment_rank) × (t1 ≤ most_digits) × (t2 ≤ most_digits) }
    ensures { result ≡ opening_size tz n r kappa t1 t2 }
{
    let t = t_size(r, kappa, t1);
    let g = garbage_size(r, t2);
    let h = garbage_size(r, t1);
    tz * n + (t + (g + h))
}
