// Inner: the `requires` is shown by the caller `factor_steps`. A step on numbers modulo 2^64: the comb, and the
// accumulate, whose sums wrap too.

#![tactic(auto)]

mod rows;
mod up;

ghost use Rattle.std.specs.Prelude.{◌≡◌, ◌≤◌};
ghost use Rattle.entry_steps.specs.Sorts.{sort_means};
ghost use Rattle.wrapped_combs.specs.Wrapped.{wrapped_list};

use entry_steps::Sort;
use up::accumulate;
use wrapped_combs::comb;

// One step in place, of either sort; one whose size is at least the length leaves all entries.
pub fn wrapped_step(sort: Sort, a: &mut [i64], d: usize)
    requires { 1 ≤ d }
    ensures { a.new ≡ wrapped_list (sort_means sort) d a.old }
{
    if a.len() <= d {
        return;
    }
    match sort {
        Sort::Comb => comb(a, d),
        Sort::Accumulate => accumulate(a, d),
    }
}
