// Inner: each `requires` is shown by the caller `kept_half`. Steps on entries that are told by the first few of them,
// after which come zeros or the same again. The first steps of a run make such entries, so that most of them need not
// be written one step after the other.

#![tactic(auto)]

ghost use Rattle.std.specs.Prelude.{◌%◌, ◌≤◌, ◌<◌, ◌≡◌, true, false, length};
ghost use Rattle.definitions.specs.Steps.{comb, accumulate};
ghost use Rattle.entry_steps.specs.Sorts.{sort_means};
ghost use Rattle.outlined_steps.specs.Outlines.{Told, ToldTo, outlined};
ghost use Rattle.outlined_steps.specs.Outcome.{StepDue, OutlinedOutcomeIs};

pub use bounded_steps::Over;
use bounded_steps::{stays_within, take_step, times_added};
use entry_steps::Sort;
use repeats::{accumulate_repeated, repeat};

// Rows of an accumulate of what is repeated that are shorter take longer than a pass more.
const ROW: u64 = 64;

// So many entries are told; after them come zeros, or they are repeated.
#[derive(Clone, Copy)]
pub struct Outline {
    pub told: usize,
    pub repeats: bool,
}

// What one step leaves: the bound of the magnitudes after it, and what tells the entries.
#[derive(Clone, Copy)]
pub struct Outlined {
    pub bound: u64,
    pub outline: Outline,
}

// The zeros that come after the told entries, written up to `to`.
fn write_zeros(a: &mut [i64], told: usize, to: usize)
    requires { (told ≤ to) × (to ≤ length a.old) }
    ensures { ToldTo told to a.old a.new }
{
    shapes::clear(&mut a[told..to]);
}

// All entries, written.
pub fn write_out(a: &mut [i64], o: Outline)
    requires { Told o a.old }
    ensures { a.new ≡ outlined o a.old }
{
    if o.repeats {
        repeat(a, o.told);
        return;
    }
    write_zeros(a, o.told, a.len());
}

// A step on all entries.
fn take_whole(a: &mut [i64], at: Outlined, sort: Sort, d: u64, w: u64) -> Result<Outlined, Over>
    requires { StepDue w at.bound d at.outline a.old }
    ensures { OutlinedOutcomeIs w (sort_means sort) d (outlined at.outline a.old) a.new result }
{
    write_out(a, at.outline);
    let bound = take_step(a, sort, d, at.bound, w)?;
    Ok(Outlined {
        bound,
        outline: Outline {
            told: a.len(),
            repeats: false,
        },
    })
}

// A comb before zeros: it reaches d further, and there are zeros again.
fn comb_before_zeros(a: &mut [i64], at: Outlined, d: u64, w: u64) -> Result<Outlined, Over>
    requires { StepDue w at.bound d at.outline a.old × (at.outline.repeats ≡ false) × (d < length a.old) }
    ensures { OutlinedOutcomeIs w comb d (outlined at.outline a.old) a.new result }
{
    let to = (at.outline.told + d as usize).min(a.len());
    write_zeros(a, at.outline.told, to);
    let bound = take_step(&mut a[..to], Sort::Comb, d, at.bound, w)?;
    Ok(Outlined {
        bound,
        outline: Outline {
            told: to,
            repeats: false,
        },
    })
}

// A comb whose size is a multiple of the period: what is repeated goes away, and the first d entries stay.
fn comb_of_repeated(a: &mut [i64], at: Outlined, d: u64, w: u64) -> Result<Outlined, Over>
    requires { StepDue w at.bound d at.outline a.old × (at.outline.repeats ≡ true)
        × (d < length a.old) × (d % at.outline.told ≡ 0) }
    ensures { OutlinedOutcomeIs w comb d (outlined at.outline a.old) a.new result }
{
    let to = d as usize;
    repeat(&mut a[..to], at.outline.told);
    Ok(Outlined {
        bound: at.bound,
        outline: Outline {
            told: to,
            repeats: false,
        },
    })
}

// An accumulate before zeros that are no nearer than d: it repeats the first d entries.
fn accumulate_before_zeros(a: &mut [i64], at: Outlined, d: u64, w: u64) -> Result<Outlined, Over>
    requires { StepDue w at.bound d at.outline a.old × (at.outline.repeats ≡ false)
        × (d < length a.old) × (at.outline.told ≤ d) }
    ensures { OutlinedOutcomeIs w accumulate d (outlined at.outline a.old) a.new result }
{
    let to = d as usize;
    write_zeros(a, at.outline.told, to);
    Ok(Outlined {
        bound: at.bound,
        outline: Outline {
            told: to,
            repeats: true,
        },
    })
}

// An accumulate of what is repeated, in one pass; or, where a value may pass w, on all entries.
fn accumulate_of_repeated(a: &mut [i64], at: Outlined, d: u64, w: u64) -> Result<Outlined, Over>
    requires { StepDue w at.bound d at.outline a.old × (at.outline.repeats ≡ true)
        × (d < length a.old) × (at.outline.told ≤ d) }
    ensures { OutlinedOutcomeIs w accumulate d (outlined at.outline a.old) a.new result }
{
    let times = times_added(Sort::Accumulate, d, a.len() as u64);
    if stays_within(at.bound, times, w) {
        let grown = at.bound * times + at.bound;
        accumulate_repeated(a, at.outline.told, d as usize);
        return Ok(Outlined {
            bound: grown,
            outline: Outline {
                told: a.len(),
                repeats: false,
            },
        });
    }
    take_whole(a, at, Sort::Accumulate, d, w)
}

// One step of a run: in a short way where what is told allows it, else on all entries.
pub fn take_outlined(
    a: &mut [i64],
    at: Outlined,
    sort: Sort,
    d: u64,
    w: u64,
) -> Result<Outlined, Over>
    requires { StepDue w at.bound d at.outline a.old }
    ensures { OutlinedOutcomeIs w (sort_means sort) d (outlined at.outline a.old) a.new result }
{
    if a.len() as u64 <= d {
        return Ok(at);
    }
    match sort {
        Sort::Comb => {
            if !at.outline.repeats {
                return comb_before_zeros(a, at, d, w);
            }
            if d % at.outline.told as u64 == 0 {
                return comb_of_repeated(a, at, d, w);
            }
        }
        Sort::Accumulate => {
            if at.outline.told as u64 <= d {
                if !at.outline.repeats {
                    return accumulate_before_zeros(a, at, d, w);
                }
                if ROW <= d - d % at.outline.told as u64 {
                    return accumulate_of_repeated(a, at, d, w);
                }
            }
        }
    }
    take_whole(a, at, sort, d, w)
}
