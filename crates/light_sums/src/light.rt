// A coefficient of a product whose first factor is light: its magnitudes add up to less than 2^30, so that the sums of
// its products with the halves of the other factor's entries fit. What users wait for in an exact product is this loop.
// It adds to both sums at once, so that the compiler keeps it one of plain numbers: two multiplications an entry are
// quicker there than in vectors, which multiply 64-bit numbers slowly.
ghost use Rattle.std.specs.Prelude.{◌+◌, ◌≤◌, ◌<◌, ◌≡◌, length};
ghost use Rattle.definitions.specs.Series.{◌·◌};
ghost use Rattle.definitions.specs.Steps.{entries};
ghost use Rattle.light_sums.specs.Told.{told};
ghost use Rattle.light_sums.specs.Weight.{weight};
ghost use Rattle.light_sums.specs.Terms.{Terms};
ghost use Rattle.light_sums.specs.Light.{SumsTo};

use crate::halves::{high_half, low_half, whole};
use crate::sums::add_product;

// A coefficient's terms added up, by the halves of the other factor's entries: with the high ones, and with the low.
#[derive(Clone, Copy)]
struct Sums {
    high: i64,
    low: i64,
}

// The term j, added to the sums of those before it.
fn add_term(f: &[i64], b: &[i64], i: usize, j: usize, sums: Sums) -> Sums
    requires j_in_bounds { (j < length f.now) × (j ≤ i) × (i < length b.now) }
    requires f_bound { (weight f.now < 1073741824) × SumsTo f.now b.now i j sums }
    ensures { SumsTo f.now b.now i (j + 1) result }
{
    let x = f[j];
    let y = b[i - j];
    Sums {
        high: add_product(sums.high, x, high_half(y)),
        low: add_product(sums.low, x, low_half(y)),
    }
}

pub fn light_sum(f: &[i64], b: &[i64], i: usize, from: usize, to: usize) -> Option<i64>
    requires { Terms f.now b.now i from to × (weight f.now < 1073741824) }
    ensures { result ≡ told ((entries f.now · entries b.now) i) }
{
    let mut sums = Sums { high: 0, low: 0 };
    for j in from..to {
        sums = add_term(f, b, i, j, sums);
    }
    whole(sums.high, sums.low)
}
