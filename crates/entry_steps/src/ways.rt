// How a value is held to a working limit: one type for each way, so that each loop that is compiled has one way.

ghost use Rattle.std.specs.Prelude.{◌≡◌, SomeIff};
ghost use Rattle.std.specs.Int.{w64};
ghost use Rattle.std.proofs.Common.{SFits};
ghost use Rattle.definitions.specs.Steps.{in_range};
ghost use Rattle.step_laws.specs.WorkingLimit.{Workable};
ghost use Rattle.entry_steps.specs.Sorts.{sort_means};
ghost use Rattle.entry_steps.specs.Passes.{new_value};
ghost use Rattle.entry_steps.specs.Asked.{Way, known, narrow, wide, Asked};

use crate::Sort;
use crate::entry::new_value;
use crate::range::within;

// The test of a step, as far as it is not known what it comes to.
pub trait Test {
    ghost way: { Way };

    // Whether what a step makes of an entry x and the one y that stands d before it is within w.
    fn passes(sort: Sort, w: u64, x: i64, y: i64) -> bool
        requires { Workable w × Asked way w (sort_means sort) x y }
        ensures { result ≡ in_range w (new_value (sort_means sort) x y) };
}

// It is known that no value passes the limit, so nothing is tested.
pub struct Known;

// The numbers are small enough for the value to be taken, and only that is tested.
pub struct Narrow;

// It is first asked whether the value can be taken.
pub struct Wide;

impl Test for Known {
    ghost way = { known };

    fn passes(_sort: Sort, _w: u64, _x: i64, _y: i64) -> bool {
        true
    }
}

impl Test for Narrow {
    ghost way = { narrow };

    fn passes(sort: Sort, w: u64, x: i64, y: i64) -> bool {
        let v = new_value(sort, x, y);
        within(w, v)
    }
}

impl Test for Wide {
    ghost way = { wide };

    fn passes(sort: Sort, w: u64, x: i64, y: i64) -> bool {
        match checked_value(sort, x, y) {
            Some(v) => within(w, v),
            None => false,
        }
    }
}

// What a step makes of x and y, where a signed number holds it.
fn checked_value(sort: Sort, x: i64, y: i64) -> Option<i64>
    ensures { SomeIff result (SFits w64 (new_value (sort_means sort) x y)) (new_value (sort_means sort) x y) }
{
    match sort {
        Sort::Comb => x.checked_sub(y),
        Sort::Accumulate => x.checked_add(y),
    }
}
