// Inner: nothing here is offered to callers; the `requires` is shown by `outlined_steps` and `steps`. One step under a
// working limit w, on entries whose magnitudes are bounded: where none can pass w it needs no test, and where all can
// be added and taken away it needs that of w alone.

#![tactic(auto)]

ghost use Rattle.std.specs.Prelude.{ℕ, ◌+◌, ◌*◌, ◌≤◌, ◌<◌, ◌≡◌, true, length};
ghost use Rattle.definitions.specs.Steps.{entries};
ghost use Rattle.step_laws.specs.Bound.{Bounded, growth};
ghost use Rattle.step_laws.specs.WorkingLimit.{Workable};
ghost use Rattle.entry_steps.specs.Sorts.{sort_means};
ghost use Rattle.entry_steps.specs.Asked.{AskedOfStep};
ghost use Rattle.entry_steps.specs.Passes.{addable, SteppedOrUndone};
ghost use Rattle.bounded_steps.specs.Outcome.{StepOutcomeIs};

use accumulates::accumulate_or_undo;
use chain_groups::Groups;
use combs::Combs;
use entry_steps::{ADDABLE, Known, Narrow, Sort, Wide};

// A value passes the working limit, so the step was not taken.
#[derive(Clone, Copy, Debug, PartialEq, Eq, Drop)]
pub struct Over;

// 2^47: up to here a look is not worth its time. A step on up to 2^15 entries stays within the largest limit, and under
// a smaller one the entries' own magnitudes are mostly no better.
const LARGE: u64 = 140737488355328;

// How often a step of size d can add the largest magnitude of n entries to itself.
pub fn times_added(sort: Sort, d: u64, n: u64) -> u64
    requires { (1 ≤ d) × (d ≤ n) }
    ensures { (1 ≤ result) × ((b : ℕ) → growth (sort_means sort) d n b ≡ b * result + b) }
{
    match sort {
        Sort::Comb => 1,
        Sort::Accumulate => n / d,
    }
}

// Whether a magnitude that is added to itself so often stays within w: one division, and no sum that is too large.
pub fn stays_within(bound: u64, times: u64, w: u64) -> bool
    requires { 1 ≤ times }
    ensures { result ≡ true → bound * times + bound ≤ w }
{
    if w < bound {
        return false;
    }
    bound <= (w - bound) / times
}

// The step of either sort, whole; or, where a value passes w, nothing.
fn step_or_undo<T: Combs + Groups>(sort: Sort, w: u64, a: &mut [i64], d: usize) -> bool
    requires { (1 ≤ d) × (d ≤ length a.old) × Workable w × AskedOfStep T.way w (sort_means sort) d a.old }
    ensures { SteppedOrUndone w (sort_means sort) d a.old a.new result }
{
    match sort {
        Sort::Comb => T::comb_or_undo(w, a, d),
        Sort::Accumulate => accumulate_or_undo::<T>(w, a, d),
    }
}

// A step that looks at each value, and before at whether it can be taken.
fn take_wide(a: &mut [i64], sort: Sort, d: u64, bound: u64, w: u64) -> Result<u64, Over>
    requires { (1 ≤ d) × (d < length a.old) × Bounded bound (entries a.old) × Workable w }
    ensures { StepOutcomeIs w (sort_means sort) d bound a.old a.new result }
{
    if step_or_undo::<Wide>(sort, w, a, d as usize) {
        return Ok(bound.max(w));
    }
    Err(Over)
}

// A step on entries that can all be added: first under a limit that keeps them so. Where that is passed and w is above
// it, the step is taken once more.
fn take_narrow(a: &mut [i64], sort: Sort, d: u64, bound: u64, w: u64) -> Result<u64, Over>
    requires le_d { (1 ≤ d) × (d < length a.old) × Bounded bound (entries a.old) × Workable w }
    requires bound_le_addable { bound ≤ addable }
    ensures { StepOutcomeIs w (sort_means sort) d bound a.old a.new result }
{
    let most = w.min(ADDABLE);
    if step_or_undo::<Narrow>(sort, most, a, d as usize) {
        return Ok(bound.max(most));
    }
    if w <= ADDABLE {
        return Err(Over);
    }
    take_wide(a, sort, d, bound, w)
}

// One step on entries of magnitude at most `bound`: untested where these can't grow past w. It tells the bound of the
// magnitudes after it.
pub fn take_bounded(a: &mut [i64], sort: Sort, d: u64, bound: u64, w: u64) -> Result<u64, Over>
    requires { (1 ≤ d) × Bounded bound (entries a.old) × Workable w }
    ensures { StepOutcomeIs w (sort_means sort) d bound a.old a.new result }
{
    let n = a.len() as u64;
    if n <= d {
        return Ok(bound);
    }
    let times = times_added(sort, d, n);
    if stays_within(bound, times, w) {
        let grown = bound * times + bound;
        step_or_undo::<Known>(sort, w, a, d as usize);
        return Ok(grown);
    }
    if bound <= ADDABLE {
        return take_narrow(a, sort, d, bound, w);
    }
    take_wide(a, sort, d, bound, w)
}

// A bound by a look at the entries: all magnitudes, bit upon bit. It is below twice the height, and a loop that never
// stops can be made one of vectors.
pub fn look(a: &[i64]) -> u64
    ensures { Bounded result (entries a.now) }
{
    let mut all: u64 = 0;
    for x in a {
        all |= x.unsigned_abs();
    }
    all
}

// The bound of a run of steps, each of which multiplies it; or, where that has grown so large that a step would have to
// be tested, one by a look at the entries.
fn better_bound(a: &[i64], sort: Sort, d: u64, bound: u64, w: u64) -> u64
    requires { (1 ≤ d) × Bounded bound (entries a.now) }
    ensures { Bounded result (entries a.now) × (result ≤ bound) }
{
    if bound <= LARGE {
        return bound;
    }
    let n = a.len() as u64;
    if n <= d {
        return bound;
    }
    if stays_within(bound, times_added(sort, d, n), w) {
        return bound;
    }
    bound.min(look(a))
}

// One step of a run.
pub fn take_step(a: &mut [i64], sort: Sort, d: u64, bound: u64, w: u64) -> Result<u64, Over>
    requires { (1 ≤ d) × Bounded bound (entries a.old) × Workable w }
    ensures { StepOutcomeIs w (sort_means sort) d bound a.old a.new result }
{
    let known = better_bound(a, sort, d, bound, w);
    take_bounded(a, sort, d, known, w)
}
