// The kept half: its start, and one step after the other as the walk hands out the divisors.
ghost use Rattle.std.specs.Prelude.{◌+◌, ◌≤◌, ◌≡◌, false, cond, not, eqb, length};
ghost use Rattle.definitions.specs.Steps.{comb, accumulate};
ghost use Rattle.definitions.specs.KeptHalf.{half_degree, start};
ghost use Rattle.definitions.specs.Requests.{divisors_due};
ghost use Rattle.step_laws.specs.WorkingLimit.{Workable};
ghost use Rattle.entry_steps.specs.Sorts.{sort_means};
ghost use Rattle.kept_half.specs.Halves.{RunOutcomeIs, KeptHalfAt, WalkAtStart, KeptHalfIs};
ghost use Rattle.divisors.specs.Walks.{walk_at};

use super::Ran;
use divisors::Walk;
use entry_steps::Sort;
use outlined_steps::{Outline, Outlined, Over, take_outlined, write_out};

// A comb where mu(r/d) is +1, for F; for I the other way round.
fn sort_for(kind: u64, plus: bool) -> Sort
    ensures { sort_means result ≡ cond (cond (eqb kind 1) plus (not plus)) comb accumulate }
{
    if kind == 1 {
        if plus { Sort::Comb } else { Sort::Accumulate }
    } else {
        if plus { Sort::Accumulate } else { Sort::Comb }
    }
}

// The first j divisors' steps, from the first entry on, which is there; the others are zeros and need not be.
fn take_divisors(a: &mut [i64], walk: Walk, kind: u64, j: u64, w: u64) -> Result<Ran, Over>
    requires kept_half_at { KeptHalfAt w kind walk 1 (record { told = 1; repeats = false }) a.old }
    requires walk_value { (walk ≡ walk_at walk.r 0) × (j ≤ divisors_due walk.r) }
    ensures { RunOutcomeIs w kind walk.r j a.new result }
{
    let n = a.len() as u64;
    let due = walk.due - j;
    let mut told = Outlined {
        bound: 1,
        outline: Outline {
            told: 1,
            repeats: false,
        },
    };
    let mut additions: u64 = 0;
    for divisor in walk.take(j as usize) {
        let sort = sort_for(kind, divisor.plus);
        told = take_outlined(a, told, sort, divisor.size, w)?;
        additions += n.saturating_sub(divisor.size);
    }
    write_out(a, told.outline);
    Ok(Ran {
        additions,
        due,
        bound: told.bound,
    })
}

// 1 or -1.
fn first_of(kind: u64) -> i64
    ensures { result ≡ start kind 0 }
{
    if kind == 1 { 1 } else { -1 }
}

// The kept half after the first j divisors, in a slice of D + 1 entries; zeros where a value would pass w.
pub fn make_kept_half(a: &mut [i64], walk: Walk, kind: u64, j: u64, w: u64) -> Result<Ran, Over>
    requires walk_at_start { WalkAtStart walk × (length a.old ≡ half_degree kind walk.r + 1) × (j ≤ divisors_due walk.r) }
    requires workable { Workable w }
    ensures { KeptHalfIs w kind walk.r j a.new result }
{
    a[0] = first_of(kind);
    let ran = take_divisors(a, walk, kind, j, w);
    if ran.is_err() {
        shapes::clear(a);
    }
    ran
}
