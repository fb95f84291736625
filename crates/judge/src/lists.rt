// Parts of a flat list of numbers: its first m, and those after them. Past the end there is nothing.
ghost use Rattle.std.specs.Prelude.{◌≡◌, take, drop};

pub fn front(xs: &[i32], m: usize) -> &[i32]
    ensures { result.now ≡ take m xs.now }
{
    &xs[..m.min(xs.len())]
}

pub fn rest(xs: &[i32], m: usize) -> &[i32]
    ensures { result.now ≡ drop m xs.now }
{
    &xs[m.min(xs.len())..]
}
