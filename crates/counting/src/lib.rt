// The census of heights (docs/RULES.md, 'The census of heights'). Nothing is asked of the caller. The working entries
// hold the kept half of each index in turn and, behind it, the heights that are known: from the largest index down the
// height of F(n) has entry n, which no smaller index reaches. So nothing is written to the rows before it is known that
// they fit.

#![tactic(auto)]

mod filling;
mod passes;

ghost use Rattle.std.specs.Prelude.{◌≡◌, true, length};
ghost use Rattle.definitions.specs.Requests.{zeros};
ghost use Rattle.answers.specs.Refusals.{number_of};
ghost use Rattle.counting.specs.Census.{good_range, answer, leaves, clears};

use answers::Refusal;
use filling::fill;
use passes::lay_rows;

// What a census answers: the code, the rows written, and the additions of all polynomials together.
#[repr(C)]
#[derive(Drop)]
pub struct Counted {
    pub code: u64,
    pub rows: u64,
    pub additions: u64,
}

// So many working entries are used.
const USED: usize = 4096;

// A refusal: its code, and 0 and 0.
fn refused(refusal: Refusal) -> Counted
    ensures { result ≡ record { code = number_of refusal; rows = 0; additions = 0 } }
{
    Counted {
        code: u64::from(refusal),
        rows: 0,
        additions: 0,
    }
}

// Is 1 <= a <= b <= 4,095?
#[tactic(auto, unfolding(crate::specs::Census::good_range))]
fn good_range(a: u64, b: u64) -> bool
    ensures { result ≡ good_range a b }
{
    1 <= a && a <= b && b <= 4095
}

// The census where the bounds are good, in just the entries that are used: all zero afterwards.
#[tactic(auto, using(crate::proofs::Codes::range_good))]
fn census_in(a: usize, b: usize, rows: &mut [u64], work: &mut [i64]) -> Counted
    requires { (good_range a b ≡ true) × (length work.old ≡ 4096) }
    ensures value { result ≡ answer a b (length rows.old) 4096 }
    ensures rows_after { rows.new ≡ leaves a b rows.old 4096 }
    ensures work_after { work.new ≡ zeros 4096 }
{
    let additions = fill(a, b, work);
    let laid = lay_rows(a, &work[a..b + 1], rows);
    shapes::clear(work);
    let Some(count) = laid else {
        return refused(Refusal::Rows);
    };
    Counted {
        code: answers::DONE,
        rows: count as u64,
        additions,
    }
}

// For each height among F(a) to F(b), ascending, the height, the smallest index and how many have it, in `rows`. The
// working entries are scratch: the first 4,096 are zero afterwards, or all are untouched.
pub fn census(a: u64, b: u64, rows: &mut [u64], work: &mut [i64]) -> Counted
    ensures answer { result ≡ answer a b (length rows.old) (length work.old) }
    ensures leaves { rows.new ≡ leaves a b rows.old (length work.old) }
    ensures clears { work.new ≡ clears a b (length rows.old) work.old }
{
    if !good_range(a, b) {
        return refused(Refusal::Range);
    }
    if work.len() < USED {
        return refused(Refusal::Short);
    }
    census_in(a as usize, b as usize, rows, &mut work[..USED])
}
