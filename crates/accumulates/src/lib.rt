// Inner: each `requires` is shown by the caller `bounded_steps`. The accumulate along its chains, as many neighbouring
// ones at a time as have their sums in registers: up to the first value that would pass the working limit w, and back.

#![tactic(auto)]

mod back;
mod second;

ghost use Rattle.std.specs.Prelude.{◌≤◌, length};
ghost use Rattle.definitions.specs.Steps.{accumulate};
ghost use Rattle.step_laws.specs.WorkingLimit.{Workable};
ghost use Rattle.entry_steps.specs.Asked.{AskedOfStep};
ghost use Rattle.entry_steps.specs.Passes.{SteppedOrUndone};

use back::undo;
use chain_groups::{Groups, take_next};
use second::take_second_row;

// The chains that have more than one entry, group by group.
fn chains_or_undo<T: Groups>(w: u64, a: &mut [i64], d: usize) -> bool
    requires { (1 ≤ d) × (d ≤ length a.old) × Workable w × AskedOfStep T.way w accumulate d a.old }
    ensures { SteppedOrUndone w accumulate d a.old a.new result }
{
    let to = d.min(a.len() - d);
    let mut c = 0;
    // Stays a while: the next group begins where the last one ends, and not all are equally wide.
    while c < to {
        let g = T::next_width(to - c);
        let stop = take_next::<T>(w, a, c, d, g);
        if stop < a.len() {
            undo(a, d, c, c + g, stop);
            return false;
        }
        c += g;
    }
    true
}

// The accumulate, whole; or, where a value passes w, nothing.
pub fn accumulate_or_undo<T: Groups>(w: u64, a: &mut [i64], d: usize) -> bool
    requires { (1 ≤ d) × (d ≤ length a.old) × Workable w × AskedOfStep T.way w accumulate d a.old }
    ensures { SteppedOrUndone w accumulate d a.old a.new result }
{
    if d + d < a.len() {
        return chains_or_undo::<T>(w, a, d);
    }
    let stop = take_second_row::<T>(w, a, d);
    if stop == a.len() {
        return true;
    }
    undo(a, d, 0, d, stop);
    false
}
