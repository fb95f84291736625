// The lengths that the sizes give, in numbers. Within the limits of rows 1 to 4 no product wraps.
ghost use Rattle.std.specs.Prelude.{◌≡◌, ◌*◌, ◌≤◌};
ghost use Rattle.fold.specs.Refusals as table;
ghost use Rattle.fold.specs.Limits.{most_constraints, most_parts, most_projections, most_rank};

use fold::counts::function_size;

// Numbers of `rows` rows of `columns` elements.
pub fn flat_length(rows: usize, columns: usize, d: usize) -> usize
    requires { (rows ≤ 256) × (columns ≤ 8192) × (d ≤ 64) }
    ensures { result ≡ rows * columns * d }
{
    rows * columns * d
}

// Numbers of a list of elements.
pub fn list_length(elements: usize, d: usize) -> usize
    requires { (elements ≤ 8192) × (d ≤ 64) }
    ensures { result ≡ elements * d }
{
    elements * d
}

// Numbers of k whole constraints.
pub fn whole_length(d: usize, n: usize, r: usize, k: usize) -> usize
    requires { (d ≤ 64) × (n ≤ most_rank) × (r ≤ most_parts) × (k ≤ most_constraints) }
    ensures { result ≡ table.whole_length d n r k }
{
    let function = function_size(n, r);
    k * ((function + 1) * d)
}

// Numbers of l constant-term constraints.
pub fn constant_terms_length(d: usize, n: usize, r: usize, l: usize) -> usize
    requires { (d ≤ 64) × (n ≤ most_rank) × (r ≤ most_parts) × (l ≤ most_constraints) }
    ensures { result ≡ table.constant_terms_length d n r l }
{
    let function = function_size(n, r);
    l * (function * d + 1)
}

// Numbers of w projection rows.
pub fn projection_length(d: usize, n: usize, r: usize, w: usize) -> usize
    requires { (d ≤ 64) × (n ≤ most_rank) × (r ≤ most_parts) × (w ≤ most_projections) }
    ensures { result ≡ table.projection_length d n r w }
{
    let row = flat_length(r, n, d);
    w * row
}
