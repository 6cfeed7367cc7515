// Inner: the `requires` is shown by the caller `bounded_steps`. The comb in place, from the top down, so that the
// entry d before is still the old one: as on numbers modulo 2^64, where it is known that no value leaves the range; or
// tested, a pass that stops where a value would pass the working limit w, and one that undoes it.

#![tactic(auto)]

ghost use Rattle.std.specs.Prelude.{◌≡◌, false, List, ◌-◌, ◌≤◌, ◌<◌, length, ℤ};
ghost use Rattle.definitions.specs.Steps.{comb, stepped, entries, in_range};
ghost use Rattle.step_laws.specs.WorkingLimit.{Workable};
ghost use Rattle.entry_steps.specs.Asked.{AskedOfStep};
ghost use Rattle.entry_steps.specs.Passes.{SteppedOrUndone};
ghost use Rattle.combs.specs.Combs.{ReadTo, TestedTo, Undoable};

use entry_steps::{Known, Narrow, Sort, Test, Wide, step_entry, step_entry_within};

// Takes the places from the top down, and stops where the next value passes w; answers the place down to which it took.
fn take_tested<T: Test>(w: u64, a: &mut [i64], d: usize) -> usize
    requires { (d ≤ length a.old) × Workable w × AskedOfStep T.way w comb d a.old }
    ensures tested_to { TestedTo w d a.old a.new result }
    ensures result_value { d < result → in_range w (stepped comb d (entries a.old) (result - 1)) ≡ false }
{
    for k in (d..a.len()).rev() {
        if !step_entry_within::<T>(Sort::Comb, w, a, k, d) {
            return k + 1;
        }
    }
    d
}

// Takes back the places from `from` on, upward: what is added is the old entry, so that each old one is put back. Not
// inlined, since else the loop before it carries along, place by place, where this one would begin.
#[inline(never)]
fn undo(a: &mut [i64], d: usize, from: usize)
    requires { (1 ≤ d) × Undoable d a.old from }
    ensures { (l : List ℤ) → ReadTo d l a.old from → a.new ≡ l }
{
    for i in from..a.len() {
        step_entry(Sort::Accumulate, a, i, d);
    }
}

// The comb, each value tested.
fn tested_or_undo<T: Test>(w: u64, a: &mut [i64], d: usize) -> bool
    requires { (1 ≤ d) × (d ≤ length a.old) × Workable w × AskedOfStep T.way w comb d a.old }
    ensures { SteppedOrUndone w comb d a.old a.new result }
{
    let t = take_tested::<T>(w, a, d);
    if t == d {
        return true;
    }
    undo(a, d, t);
    false
}

// A way to test, by its comb.
pub trait Combs: Test {
    // The comb, whole; or, where a value passes w, nothing.
    fn comb_or_undo(w: u64, a: &mut [i64], d: usize) -> bool
        requires { (1 ≤ d) × (d ≤ length a.old) × Workable w × AskedOfStep Self.way w comb d a.old }
        ensures { SteppedOrUndone w comb d a.old a.new result };
}

impl Combs for Known {
    fn comb_or_undo(_w: u64, a: &mut [i64], d: usize) -> bool {
        wrapped_combs::comb(a, d);
        true
    }
}

impl Combs for Narrow {
    fn comb_or_undo(w: u64, a: &mut [i64], d: usize) -> bool {
        tested_or_undo::<Narrow>(w, a, d)
    }
}

impl Combs for Wide {
    fn comb_or_undo(w: u64, a: &mut [i64], d: usize) -> bool {
        tested_or_undo::<Wide>(w, a, d)
    }
}
