// The value of a step at one place, and at four, modulo 2^64.

ghost use Rattle.std.specs.Prelude.{◌≡◌, ◌+◌, ◌≤◌, ◌<◌, length, set};
ghost use Rattle.entry_steps.specs.Sorts.{sort_means};
ghost use Rattle.entry_steps.specs.Passes.{new_value, set_four};
ghost use Rattle.wrapped_sums.specs.Wrapped.{wrap};
ghost use Rattle.wrapped_combs.specs.Wrapped.{wrap_entry};

use entry_steps::{Sort, put_four};
use wrapped_sums::{minus, plus};

// What a step makes of an entry x and the one y that stands d before it.
pub fn wrapped_value(sort: Sort, x: i64, y: i64) -> i64
    ensures { result ≡ wrap (new_value (sort_means sort) x y) }
{
    match sort {
        Sort::Comb => minus(x, y),
        Sort::Accumulate => plus(x, y),
    }
}

// The step at one place.
pub fn step_one(sort: Sort, a: &mut [i64], i: usize, d: usize)
    requires { (d ≤ i) × (i < length a.old) }
    ensures { a.new ≡ set a.old i (wrap_entry (sort_means sort) d a.old i) }
{
    a[i] = wrapped_value(sort, a[i], a[i - d]);
}

// The step at the four places from k on: all four entries are read before one is written, so that the compiler can
// take them as vectors.
pub fn step_four(sort: Sort, a: &mut [i64], k: usize, d: usize)
    requires { (d ≤ k) × (k + 4 ≤ length a.old) }
    ensures { a.new ≡ set_four a.old k (wrap_entry (sort_means sort) d a.old) }
{
    let v0 = wrapped_value(sort, a[k], a[k - d]);
    let v1 = wrapped_value(sort, a[k + 1], a[k + 1 - d]);
    let v2 = wrapped_value(sort, a[k + 2], a[k + 2 - d]);
    let v3 = wrapped_value(sort, a[k + 3], a[k + 3 - d]);
    put_four(a, k, v0, v1, v2, v3);
}
