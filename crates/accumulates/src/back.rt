// The way back: what was added is taken away again, from the top down, so that it is still there.

ghost use Rattle.std.specs.Prelude.{◌≡◌, List, ℕ, ◌+◌, ◌≤◌, ◌<◌, length, ℤ};
ghost use Rattle.std.specs.Int.{w64};
ghost use Rattle.std.proofs.Common.{Fits, SFits};
ghost use Rattle.definitions.specs.Steps.{comb};
ghost use Rattle.entry_steps.specs.Passes.{new_entry};
ghost use Rattle.accumulates.specs.Stopped.{taken_in_row, PutBack, Stopped, Undoable};

use entry_steps::{Sort, step_entry};

// The places from `from` on and below `to`.
fn put_back(a: &mut [i64], d: usize, from: usize, to: usize)
    requires le_d { (1 ≤ d) × (d ≤ from) × (from ≤ to) × (to ≤ length a.old) }
    requires by_index { (x : ℕ) → from ≤ x → x < to → SFits w64 (new_entry comb d a.old x) }
    ensures { PutBack d from to a.old a.new }
{
    for x in (from..to).rev() {
        step_entry(Sort::Comb, a, x, d);
    }
}

// How many neighbours are taken from k on, the first place of a row.
#[tactic(auto, unfolding(crate::specs::Stopped::taken_in_row))]
fn taken_in_row(k: usize, full: usize, to: usize, stop: usize) -> usize
    requires { (full ≤ to) × Fits w64 (k + to) }
    ensures { result ≡ taken_in_row full to stop k }
{
    if k + to <= stop {
        return to;
    }
    if k + full <= stop {
        return stop - k;
    }
    full
}

// The chains below `full`, and those from there and below `to` before `stop`, row by row.
fn undo_rows(a: &mut [i64], d: usize, full: usize, to: usize, stop: usize)
    requires { (1 ≤ d) × (full ≤ to) × (to ≤ d) × Undoable d full to stop a.old }
    ensures { (l : List ℤ) → Stopped d full to stop l a.old → a.new ≡ l }
{
    let mut k = a.len() - a.len() % d;
    // Stays a while: it goes down, from one row to the one d before.
    while d <= k {
        let end = (k + taken_in_row(k, full, to, stop)).min(a.len());
        put_back(a, d, k, end);
        k -= d;
    }
}

// Where one group was all chains, the places taken are neighbours, however short the rows are.
pub(crate) fn undo(a: &mut [i64], d: usize, full: usize, to: usize, stop: usize)
    requires { (1 ≤ d) × (full ≤ to) × (to ≤ d) × (d ≤ stop) × (stop ≤ length a.old)
        × Undoable d full to stop a.old }
    ensures { (l : List ℤ) → Stopped d full to stop l a.old → a.new ≡ l }
{
    if to - full == d {
        put_back(a, d, d, stop);
        return;
    }
    undo_rows(a, d, full, to, stop);
}
