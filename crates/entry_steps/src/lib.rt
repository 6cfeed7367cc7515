// Inner: nothing here but `Sort` is offered to callers; the crates of combs and of accumulates show each `requires`.
// What their passes are made of: a step at one entry, its test, a pass that has got to some place, and the entries that
// chains begin with.

#![tactic(auto)]

mod entry;
mod range;
mod ways;

pub use entry::{first_row, new_value, put_four, step_entry, step_entry_within};
pub use ways::{Known, Narrow, Test, Wide};

// 2^62 - 1: two numbers that are no larger can be added and taken away.
pub const ADDABLE: u64 = 4611686018427387903;

#[derive(Clone, Copy)]
pub enum Sort {
    Comb,
    Accumulate,
}
