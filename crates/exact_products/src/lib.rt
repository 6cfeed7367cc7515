// Inner: the callers show each `requires`. A polynomial times another, in place and exact: the product, or that a
// coefficient of it is outside the range from -(2^63 - 1) to 2^63 - 1.

#![tactic(auto)]

ghost use Rattle.std.specs.Prelude.{◌+◌, ◌-◌, ◌≤◌, ◌<◌, min, ◌≡◌, true, not, is_ok, length};
ghost use Rattle.definitions.specs.Series.{◌·◌, firsts};
ghost use Rattle.definitions.specs.Steps.{entries, largest, some_outside};
ghost use Rattle.series.specs.Degree.{ZeroFrom};
ghost use Rattle.light_sums.specs.Told.{told};
ghost use Rattle.light_sums.specs.Weight.{weight};
ghost use Rattle.exact_products.specs.Products.{Ready};

use digit_sums::heavy_sum;
use light_sums::light_sum;

// A coefficient is out of range.
#[derive(Clone, Copy, Debug, PartialEq, Eq)]
pub struct Over;

// The magnitudes of all entries added up, or 2^63 where that is more.
pub fn weight_of(f: &[i64]) -> u64
    ensures { result ≡ min (weight f.now) 9223372036854775808 }
{
    let mut w: u64 = 0;
    for x in f {
        w = w.saturating_add(x.unsigned_abs());
    }
    w.min(9223372036854775808)
}

// b, which has `have` entries and zeros after them, times f, in place, as far as b goes: from the top down, an entry
// needs the old ones up to its own place alone. It stops at the first that is out of range. A factor that is not light,
// of a weight of 2^30 or more, takes the slow way.
pub fn multiply(b: &mut [i64], f: &[i64], have: usize) -> Result<(), Over>
    requires { (1 ≤ have) × (1 ≤ length f.now) × (length f.now ≤ 65536)
        × (length b.old + 1 ≤ have + length f.now) × ZeroFrom have (entries b.old) }
    ensures value { is_ok result ≡ not (some_outside largest 0 (length b.old)
        (entries f.now · entries b.old)) }
    ensures b_after { (is_ok result ≡ true → b.new
        ≡ firsts (length b.old) (entries f.now · entries b.old))
        × (length b.new ≡ length b.old) }
{
    let light = weight_of(f) < 1073741824;
    for i in (0..b.len()).rev() {
        // Before these terms b's entry is 0, after them f's.
        let from = (i + 1).saturating_sub(have);
        let to = (i + 1).min(f.len());
        let v = if light {
            light_sum(f, b, i, from, to)
        } else {
            heavy_sum(f, b, i, from, to)
        };
        b[i] = v.ok_or(Over)?;
    }
    Ok(())
}
