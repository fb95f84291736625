// Rows of five elements by value, one for each second function, and their sums.
ghost use Rattle.std.specs.Prelude.{◌≡◌, [], ◌+◌, ◌*◌, ◌≤◌, length, get_or};
ghost use Rattle.integers.specs.Lists.{tab};
ghost use Rattle.ring.specs.Element.{Degree, R, lift, array, every, same};
ghost use Rattle.fold.specs.Messages.{g, elements};
ghost use Rattle.aggregation.specs.Rows.{Canonical, added, plus_product};
ghost use Rattle.fold.specs.Limits.{most_rank};

use constraints::second::COUNT;
use ring::element::Element;
use ring::{coefficients, product};

// The sums of the entries of two rows, written as the elements of `out`.
pub fn write_sums(d: usize, first: [[i32; 64]; 5], second: [[i32; 64]; 5], out: &mut [i32])
    requires degree { Degree d }
    requires out_len { length out.old ≡ 5 * d }
    ensures { out.new ≡ elements d 5 (added d first second) }
{
    for k in 0..COUNT {
        let value = Element {
            coefficients: coefficients::added(d, first[k], second[k]),
        };
        value.store(d, out, k);
    }
}

// Each sum with the row's entry times y added to it.
pub fn add_products(
    d: usize,
    sums: [[i32; 64]; 5],
    row: [[i32; 64]; 5],
    y: [i32; 64],
) -> [[i32; 64]; 5]
    requires { Degree d }
    ensures { result ≡ tab 5 (λ k. array d (plus_product d sums row (lift d y) k)) }
{
    let mut out = [[0i32; 64]; 5];
    for k in 0..COUNT {
        let product = product::multiply(d, row[k], y);
        out[k] = coefficients::added(d, sums[k], product);
    }
    out
}

// Whether all entries of a row are zero.
fn is_zero(d: usize, row: [[i32; 64]; 5]) -> bool
    requires { Degree d }
    ensures { result ≡ every 5 (λ k. same d (lift d (get_or row k [])) (R d).zero) }
{
    let zero = Element::additive_identity().coefficients;
    let mut all = true;
    for entry in row {
        all &= coefficients::equal(d, entry, zero);
    }
    all
}

// Each sum with the row's entry times <s_i, s_j> added to it. That product is formed only where an entry is not zero.
pub fn add_pair(
    d: usize,
    n: usize,
    witness: &[i32],
    i: usize,
    j: usize,
    sums: [[i32; 64]; 5],
    row: [[i32; 64]; 5],
) -> [[i32; 64]; 5]
    requires degree { Degree d }
    requires n_le_most_rank { (n ≤ most_rank) × ((i * n + n) * d ≤ length witness.now) × ((j * n + n) * d ≤ length witness.now) }
    requires canonical { Canonical d sums }
    ensures { result ≡ tab 5 (λ k. array d (plus_product d sums row (g d n witness.now i j) k)) }
{
    if is_zero(d, row) {
        return sums;
    }
    let inner = product::inner(d, n, witness, i * n, witness, j * n);
    add_products(d, sums, row, inner)
}
