// Inner: each `requires` is shown by the caller `accumulates`. The next group of an accumulate's chains: how many it
// has, by how it is tested, and the loop for so many.

#![tactic(auto)]

ghost use Rattle.std.specs.Prelude.{◌+◌, ◌≤◌};
ghost use Rattle.chains.specs.Tested.{GroupAsked, GroupTaken};
ghost use Rattle.chain_groups.specs.Widths.{WidthOf};

use chains::take_group;
use entry_steps::{Known, Narrow, Test, Wide};

// A way to test, by how many chains its groups have.
pub trait Groups: Test {
    // How many chains the next group has, of those that are left.
    fn next_width(left: usize) -> usize
        requires { 1 ≤ left }
        ensures { (1 ≤ result) × (result ≤ left) × WidthOf Self.way result };
}

// Untested, sixteen, or at most eight.
impl Groups for Known {
    fn next_width(left: usize) -> usize {
        if 16 <= left { 16 } else { left.min(8) }
    }
}

// At most six, since beside what the test needs the registers hold no more sums.
impl Groups for Narrow {
    fn next_width(left: usize) -> usize {
        left.min(6)
    }
}

// One, where each sum is first asked for whether it can be taken.
impl Groups for Wide {
    fn next_width(_left: usize) -> usize {
        1
    }
}

// The next group, of g chains. Each number has its own loop, with its sums in registers, and size 1, which has one
// chain, a loop whose stride is known.
pub fn take_next<T: Groups>(w: u64, a: &mut [i64], c: usize, d: usize, g: usize) -> usize
    requires { GroupAsked T.way w d c (c + g) a.old × WidthOf T.way g }
    ensures { GroupTaken w d c (c + g) a.old a.new result }
{
    if d == 1 {
        return take_group::<T, 1>(w, a, 0, 1);
    }
    match g {
        16 => take_group::<T, 16>(w, a, c, d),
        8 => take_group::<T, 8>(w, a, c, d),
        7 => take_group::<T, 7>(w, a, c, d),
        6 => take_group::<T, 6>(w, a, c, d),
        5 => take_group::<T, 5>(w, a, c, d),
        4 => take_group::<T, 4>(w, a, c, d),
        3 => take_group::<T, 3>(w, a, c, d),
        2 => take_group::<T, 2>(w, a, c, d),
        _ => take_group::<T, 1>(w, a, c, d),
    }
}
