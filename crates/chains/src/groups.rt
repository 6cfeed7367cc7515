// A group: neighbouring chains, from that of the remainder c on, side by side and row by row. The last row may be a
// part of one.

ghost use Rattle.std.specs.Prelude.{◌+◌};
ghost use Rattle.chains.specs.Tested.{GroupAsked, GroupTaken};

use crate::rows::take_row;
use entry_steps::{Test, first_row};

// N chains, up to the first place whose sum would pass w, which is answered; or all, and the number of entries is.
pub fn take_group<T: Test, const N: usize>(w: u64, a: &mut [i64], c: usize, d: usize) -> usize
    requires { GroupAsked T.way w d c (c + N) a.old }
    ensures { GroupTaken w d c (c + N) a.old a.new result }
{
    let mut s = [0; N];
    first_row(&mut s, a, c, N);
    let mut k = c + d;
    // Stays a while: its rows are d apart, and the part of a row that is left begins where it ends.
    while k + N <= a.len() {
        let q = take_row::<T, N>(w, &mut s, a, k, N);
        if q < N {
            return k + q;
        }
        k += d;
    }
    if a.len() <= k {
        return a.len();
    }
    k + take_row::<T, N>(w, &mut s, a, k, a.len() - k)
}
