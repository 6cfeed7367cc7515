// Inner: each `requires` is shown by the caller `chain_groups`. A group of neighbouring chains of an accumulate, side
// by side: the entries whose places leave one remainder of division by d are taken together, with a running sum, so
// that each is read once and written once, and what was stored is never read back.

#![tactic(auto)]

mod groups;
mod rows;

pub use groups::take_group;
