// Chains of at most two entries.

ghost use Rattle.std.specs.Prelude.{◌≤◌, length};
ghost use Rattle.definitions.specs.Steps.{accumulate};
ghost use Rattle.step_laws.specs.WorkingLimit.{Workable};
ghost use Rattle.entry_steps.specs.Asked.{AskedOfStep};
ghost use Rattle.chains.specs.Tested.{GroupTaken};

use entry_steps::{Sort, Test, step_entry_within};

// Where no chain has more than two entries the second ones are neighbours, and what is added to them is not changed.
pub(crate) fn take_second_row<T: Test>(w: u64, a: &mut [i64], d: usize) -> usize
    requires { (1 ≤ d) × (d ≤ length a.old) × Workable w × AskedOfStep T.way w accumulate d a.old }
    ensures { GroupTaken w d 0 d a.old a.new result }
{
    for x in d..a.len() {
        if !step_entry_within::<T>(Sort::Accumulate, w, a, x, d) {
            return x;
        }
    }
    a.len()
}
