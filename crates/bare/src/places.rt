// Where the blocks of a bare opening stand, in elements: t, z, then the four of each turn.
ghost use Rattle.std.specs.Prelude.{◌≡◌, ◌≤◌};
ghost use Rattle.fold.specs.Limits.{most_parts, most_rank, most_commitment_rank};
ghost use Rattle.bare.specs.Opening.{z_place, turns_place, bare_size};

// The elements of a turn.
pub const TURN: usize = 4;

// Where z starts.
pub fn z_place(r: usize, kappa: usize) -> usize
    requires { (r ≤ most_parts) × (kappa ≤ most_commitment_rank) }
    ensures { result ≡ z_place r kappa }
{
    r * kappa
}

// Where the turns start.
pub fn turns_place(n: usize, r: usize, kappa: usize) -> usize
    requires { (n ≤ most_rank) × (r ≤ most_parts) × (kappa ≤ most_commitment_rank) }
    ensures { result ≡ turns_place n r kappa }
{
    r * kappa + n
}

// Elements of a bare opening.
pub fn bare_size(n: usize, r: usize, kappa: usize) -> usize
    requires { (n ≤ most_rank) × (r ≤ most_parts) × (kappa ≤ most_commitment_rank) }
    ensures { result ≡ bare_size n r kappa }
{
    r * kappa + n + r * TURN
}
