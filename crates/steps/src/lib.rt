// One step on a lent slice, under a working limit: a comb or an accumulate, in place, whole or not at all.

#![tactic(auto)]

ghost use Rattle.std.specs.Prelude.{◌≡◌};
ghost use Rattle.answers.specs.Refusals.{number_of};
ghost use Rattle.definitions.specs.Steps.{step_code, step_count, step_leaves};
ghost use Rattle.entry_steps.specs.Sorts.{sort_means};

use answers::Refusal;
use bounded_steps::{Over, look, take_bounded};
pub use entry_steps::Sort;

#[derive(Drop)]
pub struct Step {
    pub sort: Sort,
    pub size: u64,
}

#[repr(C)]
#[derive(Drop)]
pub struct Stepped {
    pub code: u64,
    pub count: u64,
}

impl Stepped {
    // A refusal: its code, and nothing was added.
    fn refused(refusal: Refusal) -> Stepped
        ensures { result ≡ record { code = number_of refusal; count = 0 } }
    {
        Stepped {
            code: refusal.into(),
            count: 0,
        }
    }
}

impl Step {
    // One step on any slice: STEP for a size of 0 or above 65,535, LIMIT for a working limit below 1, then OVER, each
    // with every entry as it was and the count 0. A look at the entries tells mostly that no value can pass the limit.
    pub fn apply(self, w: i64, a: &mut [i64]) -> Stepped
        ensures code_value { result.code ≡ step_code w (sort_means self.sort) self.size a.old }
        ensures count_value { result.count ≡ step_count w (sort_means self.sort) self.size a.old }
        ensures a_after { a.new ≡ step_leaves w (sort_means self.sort) self.size a.old }
    {
        let sort = self.sort;
        let size = self.size;
        if size == 0 {
            return Stepped::refused(Refusal::Step);
        }
        if 65535 < size {
            return Stepped::refused(Refusal::Step); // as for an index
        }
        if w < 1 {
            return Stepped::refused(Refusal::Limit);
        }
        let n = a.len() as u64;
        if n <= size {
            return Stepped {
                code: answers::DONE,
                count: 0,
            };
        }
        match take_bounded(a, sort, size, look(a), w.unsigned_abs()) {
            Ok(_) => Stepped {
                code: answers::DONE,
                count: n - size,
            },
            Err(Over) => Stepped::refused(Refusal::Over),
        }
    }
}
