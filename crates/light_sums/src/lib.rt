// Inner: the callers show each `requires`. One coefficient of a product of two polynomials, exact, where the first is
// light: its magnitudes add up to less than 2^30. It is told as Some, or None where it is outside the range from
// -(2^63 - 1) to 2^63 - 1.

#![tactic(auto)]

mod halves;
mod light;
mod sums;

pub use halves::{joined, told};
pub use light::light_sum;
pub use sums::{add_product, less_product, plus};
