// Inner: each `requires` is shown by the callers. A step on numbers modulo 2^64 at one entry and at four, and the
// comb: a difference that a signed number does not hold wraps, and nothing is tested. Where no value leaves the range
// the numbers are the true ones.

#![tactic(auto)]

mod down;
mod value;

pub use down::comb;
pub use value::{step_four, step_one, wrapped_value};
