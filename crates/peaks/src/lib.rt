// Inner: the `requires` is shown by the caller `polynomial`. The height of a slice and the lowest place where it
// stands, as `heights::peak` finds them, but quicker, since a bound of the magnitudes is known: nothing is looked for
// above it, and else the next larger magnitude is looked for in blocks.

#![tactic(auto)]

ghost use Rattle.std.specs.Prelude.{◌+◌, ◌≤◌, ◌≡◌, true, length};
ghost use Rattle.definitions.specs.Answer.{height_of, peak_of};
ghost use Rattle.definitions.specs.Steps.{entries};
ghost use Rattle.step_laws.specs.Bound.{Bounded};
ghost use Rattle.heights.specs.Above.{NoneAbove, NextAbove};
ghost use Rattle.entry_steps.specs.Passes.{addable};

use entry_steps::ADDABLE;
use heights::{Top, above, peak};

// How many entries are gathered before the sign of what has come together is looked at.
const BLOCK: usize = 16;

// Whether no magnitude of a block is above h: then neither h - x nor h + x is below 0 for any entry x, and bits put
// together keep a sign. A loop that never stops can be made one of vectors.
fn none_in_block(block: &[i64; BLOCK], h: u64) -> bool
    requires { (h ≤ addable) × Bounded addable (entries block.now) }
    ensures { result ≡ true → NoneAbove h block.now 0 16 }
{
    let most = h as i64;
    let mut gathered: i64 = 0;
    for x in block {
        gathered |= (most - *x) | (most + *x);
    }
    0 <= gathered
}

// The first place from `from` on with a magnitude above h, or the end: at once where nothing can be larger, and else by
// blocks, up to one that may hold it.
fn next_above(coeffs: &[i64], from: usize, h: u64, bound: u64) -> usize
    requires from_in_bounds { (from ≤ length coeffs.now) × (h ≤ bound) × (bound ≤ addable) }
    requires bounded { Bounded bound (entries coeffs.now) }
    ensures { NextAbove h coeffs.now from result }
{
    if h == bound {
        return coeffs.len();
    }
    let (blocks, _) = coeffs[from..].as_chunks::<BLOCK>();
    for (k, block) in blocks.iter().enumerate() {
        if !none_in_block(block, h) {
            return above(coeffs, from + k * BLOCK, h);
        }
    }
    above(coeffs, from + blocks.len() * BLOCK, h)
}

// The height and the lowest place where it stands, of entries of magnitude at most `bound`.
pub fn peak_within(coeffs: &[i64], bound: u64) -> Top
    requires { Bounded bound (entries coeffs.now) }
    ensures { result ≡ record { height = height_of coeffs.now; place = peak_of coeffs.now } }
{
    if ADDABLE < bound {
        return peak(coeffs);
    }
    let mut h: u64 = 0;
    let mut p: usize = 0;
    let mut i = next_above(coeffs, 0, h, bound);
    // Stays a while: it goes from place to place that `next_above` finds, and no range or iterator says which come.
    while i < coeffs.len() {
        h = coeffs[i].unsigned_abs();
        p = i;
        i = next_above(coeffs, i + 1, h, bound);
    }
    Top {
        height: h,
        place: p as u64,
    }
}
