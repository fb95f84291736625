// Arrays by value, filled place by place.
ghost use Rattle.std.specs.Prelude.{◌≡◌, ℕ, ◌<◌, ℤ, pos};
ghost use Rattle.integers.specs.Lists.{tab, upto};
ghost use Rattle.ring.specs.Element.{Degree};

// f(k) at each place k below d, zeros past it: the table of every g that f computes.
pub fn tabulated<F: Fn(usize) -> i32>(d: usize, f: F) -> [i32; 64]
    requires degree { Degree d }
    requires calls { (k : ℕ) → k < d → F.pre f k }
    ensures { (g : ℕ → ℤ) → ((k : ℕ) (x : ℤ) → k < d → F.post f k x → x ≡ g k) → result ≡ tab 64 (upto d g (pos 0)) }
{
    let mut out = [0i32; 64];
    for k in 0..d {
        out[k] = f(k);
    }
    out
}
