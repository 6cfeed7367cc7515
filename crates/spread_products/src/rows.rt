// A product by rows: for each entry c of the one factor, at its place, the other is added or taken away |c| times.

ghost use Rattle.std.specs.Prelude.{◌≤◌, length};
ghost use Rattle.definitions.specs.Series.{◌·◌, constant, spread, z^};
ghost use Rattle.definitions.specs.Steps.{entries};
ghost use Rattle.spread_products.specs.Rows.{signed, Added, Made};

use wrapped_sums::{minus, plus};

// g added from the place `at` on, as far as a goes, or taken away.
// Stays a bool: it is the sign of a coefficient, and the compiler asks for it once a row.
fn add_row(a: &mut [i64], g: &[i64], at: usize, away: bool)
    requires { at ≤ length a.old }
    ensures { Added (z^ at · (λ i. signed away (entries g.now i))) a.old a.new }
{
    let end = g.len().min(a.len() - at);
    for j in 0..end {
        let x = a[at + j];
        a[at + j] = if away { minus(x, g[j]) } else { plus(x, g[j]) };
    }
}

// That c times, taken away where c is negative.
fn add_times(a: &mut [i64], g: &[i64], at: usize, c: i64)
    requires { at ≤ length a.old }
    ensures { Added (constant c · (z^ at · entries g.now)) a.old a.new }
{
    for _ in 0..c.unsigned_abs() {
        add_row(a, g, at, c < 0);
    }
}

// f, with z^p for z, times g, as far as a goes.
pub fn times_spread(a: &mut [i64], f: &[i64], g: &[i64], p: usize)
    requires { (1 ≤ p) × (p ≤ 65535) }
    ensures { Made (spread p (entries f.now) · entries g.now) a.new }
{
    a.fill(0);
    let terms = f.len().min(a.len().div_ceil(p));
    for i in 0..terms {
        add_times(a, g, i * p, f[i]);
    }
}
