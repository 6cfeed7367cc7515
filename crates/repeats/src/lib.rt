// Inner: each `requires` is shown by the caller `outlined_steps`. The first entries again and again, through all of a
// slice; and an accumulate of that, in one pass.

#![tactic(auto)]

mod rows;

ghost use Rattle.std.specs.Prelude.{ℕ, ◌≤◌, ◌<◌, ◌≡◌, false, length};
ghost use Rattle.definitions.specs.Series.{Series, firsts};
ghost use Rattle.definitions.specs.Steps.{accumulate, entries, largest, step_over, step_list};
ghost use Rattle.repeats.specs.Repeats.{Again, repeated};

use rows::sum_row;

// Each entry from d on is what stands d before it.
fn copy_up(a: &mut [i64], d: usize)
    requires { (1 ≤ d) × (d ≤ length a.old) }
    ensures { (f : Series) → Again d f → ((k : ℕ) → k < d → entries a.old k ≡ f k)
        → a.new ≡ firsts (length a.old) f }
{
    for i in d..a.len() {
        a[i] = a[i - d];
    }
}

// How far back to copy from: a double of d, so far that what is read was stored long before, or all there is.
fn far_back(d: usize, n: usize) -> usize
    requires { (1 ≤ d) × (d ≤ n) }
    ensures { (d ≤ result) × (result ≤ n) × ((f : Series) → Again d f → Again result f) }
{
    let mut far = d;
    // Stays a while: it doubles, and goes through no range.
    while far < 128 && far <= n - far {
        far += far;
    }
    far
}

// The first d entries again and again.
pub fn repeat(a: &mut [i64], d: usize)
    requires { (1 ≤ d) × (d ≤ length a.old) }
    ensures { a.new ≡ repeated d a.old }
{
    let far = far_back(d, a.len());
    copy_up(&mut a[..far], d);
    copy_up(a, far);
}

// An accumulate of size d of the first t entries again and again: the first d are written, and the others row by row,
// each row so long that its old entries lie side by side among the first d, up to the last of these.
pub fn accumulate_repeated(a: &mut [i64], t: usize, d: usize)
    requires le_t { (1 ≤ t) × (t ≤ d) × (d ≤ length a.old) }
    requires a_value { step_over largest accumulate d (repeated t a.old) ≡ false }
    ensures { a.new ≡ step_list accumulate d (repeated t a.old) }
{
    repeat(&mut a[..d], t);
    let n = a.len();
    let rest = d % t;
    let row = d - rest;
    for from in (d..n).step_by(row) {
        let to = n.min(from + row);
        sum_row(a, from - rest, d, from, to);
    }
}
