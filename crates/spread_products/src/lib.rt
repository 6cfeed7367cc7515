// Inner: the caller `second_engine` shows each `requires`. The second engine's two passes, modulo 2^64 and as far as a
// slice goes: a polynomial times another with z^p for z, which costs what that one's entries cost, and a division by
// z^m - 1, each entry once.

#![tactic(auto)]

mod division;
mod rows;

pub use division::divide;
pub use rows::times_spread;
