// Numbers modulo q, held centred: -2147483598 to 2147483598.
ghost use Rattle.std.specs.Prelude.{◌≡◌, ◌≤◌, pos, nat_abs, ◌+ℤ◌, ◌*ℤ◌};
ghost use Rattle.integers.specs.Remainder.{emod};
ghost use Rattle.residues.specs.Modulus.{q, centred};

pub const MODULUS: i64 = 4294967197;

pub const LARGEST: i64 = 2147483598;

// One half modulo q: twice this is q + 1.
pub const HALF: i32 = 2147483599;

// The centred number congruent to x modulo q.
pub fn centre(x: i64) -> i32
    ensures { result ≡ centred x }
{
    let remainder = x % MODULUS;
    let shifted = remainder + (MODULUS + LARGEST);
    let low = shifted % MODULUS;
    (low - LARGEST) as i32
}

// The same for x of at most 2^32 in absolute value, by one remainder.
fn centre_small(x: i64) -> i32
    requires { nat_abs x ≤ 4294967296 }
    ensures { result ≡ centred x }
{
    let shifted = x + (MODULUS + LARGEST);
    let low = shifted % MODULUS;
    (low - LARGEST) as i32
}

pub fn add(x: i32, y: i32) -> i32
    ensures { result ≡ centred (x +ℤ y) }
{
    centre_small(x as i64 + y as i64)
}

pub fn multiply(x: i32, y: i32) -> i32
    ensures { result ≡ centred (x *ℤ y) }
{
    centre(x as i64 * y as i64)
}

// x modulo q, from 0 to q - 1.
pub fn residue(x: i32) -> u64
    ensures { result ≡ emod x q }
{
    let wide = x as i64;
    let raised = wide + MODULUS;
    (raised % MODULUS) as u64
}

// The centred number congruent to x modulo q. A remainder above 2147483598 is lowered by q: `upper` is 1 there, where the sum reaches 2^32,
// and 0 elsewhere.
pub fn from_residue(x: u64) -> i32
    ensures { result ≡ centred (pos x) }
{
    let low = x % 4294967197;
    let wide = low as i64;
    let upper = (wide + 2147483697) / 4294967296;
    (wide - upper * MODULUS) as i32
}
