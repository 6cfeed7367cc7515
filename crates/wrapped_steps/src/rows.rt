// The accumulate of a small size N by rows of N neighbours, one of each chain. A chain's running sum is kept beside the
// slice, in s, so that nothing that was stored is read back. The loops are over the sums, whose number the compiler
// knows, so that they are unrolled and the sums stay in registers.

ghost use Rattle.std.specs.Prelude.{◌≡◌, List, ◌+◌, ◌≤◌, ◌<◌, length, set, ℤ};
ghost use Rattle.wrapped_steps.specs.Upward.{UpTo};
ghost use Rattle.wrapped_steps.specs.Rows.{row_sum, Carried};

use entry_steps::{Sort, first_row};
use wrapped_combs::wrapped_value;

// The entry at q of the row that begins at k, with its chain's sum added, is both from now on.
fn take_entry(s: &mut [i64], a: &mut [i64], k: usize, q: usize)
    requires { (q < length s.old) × (k + q < length a.old) }
    ensures { (s.new ≡ set s.old q (row_sum s.old a.old k q))
        × (a.new ≡ set a.old (k + q) (row_sum s.old a.old k q)) }
{
    let v = wrapped_value(Sort::Accumulate, a[k + q], s[q]);
    s[q] = v;
    a[k + q] = v;
}

fn take_row<const N: usize>(s: &mut [i64; N], a: &mut [i64], k: usize)
    requires { (N ≤ k) × (k + N ≤ length a.old) × Carried N k 0 s.old a.old }
    ensures { Carried N (k + N) 0 s.new a.new
        × ((l : List ℤ) → UpTo N l a.old k → UpTo N l a.new (k + N)) }
{
    for q in 0..N {
        take_entry(s, a, k, q);
    }
}

// Takes whole rows of N; answers the place up to which it took.
pub(crate) fn known_rows<const N: usize>(a: &mut [i64]) -> usize
    requires { (1 ≤ N) × (N ≤ length a.old) }
    ensures { UpTo N a.old a.new result }
{
    let mut s = [0; N];
    first_row(&mut s, a, 0, N);
    let mut k = N;
    // Stays a while: its rows are N apart, and it answers where they end.
    while N <= a.len() - k {
        take_row(&mut s, a, k);
        k += N;
    }
    k
}
