// A row: neighbouring entries of as many chains, whose running sums stand in s. The loops are over the sums, whose
// number N the compiler knows, so that they are unrolled and the sums stay in registers.

ghost use Rattle.std.specs.Prelude.{◌≡◌, false, cond, ℕ, ◌+◌, ◌≤◌, ◌<◌, length, get_or, set};
ghost use Rattle.std.specs.Int.{w64};
ghost use Rattle.std.proofs.Common.{SFits};
ghost use Rattle.definitions.specs.Integers.{0ℤ};
ghost use Rattle.definitions.specs.Steps.{in_range};
ghost use Rattle.step_laws.specs.WorkingLimit.{Workable};
ghost use Rattle.chains.specs.Chains.{sum_at, RowTaken};
ghost use Rattle.chains.specs.Tested.{AskedInRow, FoundInRow};

use entry_steps::{Sort, Test, new_value};

// The entry at q of the row that begins at k, with its chain's sum added, is the entry from now on, and its chain's
// sum, where it is within w; tells whether it is. That an entry fits its type is known where it is read, and an undoing
// needs it.
fn take_entry<T: Test>(w: u64, s: &mut [i64], a: &mut [i64], k: usize, q: usize) -> bool
    requires { (q < length s.old) × (k + q < length a.old) × Workable w
        × AskedInRow T.way w s.old a.old k q }
    ensures value { (result ≡ in_range w (sum_at s.old a.old k q))
        × SFits w64 (get_or a.old (k + q) 0ℤ) }
    ensures s_after { (s.new ≡ cond result (set s.old q (sum_at s.old a.old k q))
        s.old)
        × (a.new ≡ cond result (set a.old (k + q) (sum_at s.old a.old k q))
        a.old) }
{
    let x = a[k + q];
    let y = s[q];
    if !T::passes(Sort::Accumulate, w, x, y) {
        return false;
    }
    let v = new_value(Sort::Accumulate, x, y);
    s[q] = v;
    a[k + q] = v;
    true
}

// The first m entries of a row, up to one that would pass w; answers how many were taken.
pub(crate) fn take_row<T: Test, const N: usize>(
    w: u64,
    s: &mut [i64; N],
    a: &mut [i64],
    k: usize,
    m: usize,
) -> usize
    requires m_in_bounds { (m ≤ N) × (k + m ≤ length a.old) × Workable w }
    requires by_index { (j : ℕ) → j < m → AskedInRow T.way w s.old a.old k j }
    ensures upper_bound { (result ≤ m) × RowTaken k result s.old a.old s.new a.new }
    ensures by_index_2 { (j : ℕ) → j < result → FoundInRow w s.old a.old k j }
    ensures result_value { result < m → in_range w (sum_at s.old a.old k result) ≡ false }
{
    let mut q = 0;
    // Stays a while: as a `for`, LLVM makes no vectors of the sums, and the untested pass takes a tenth longer.
    while q < N {
        if m <= q || !take_entry::<T>(w, s, a, k, q) {
            return q;
        }
        q += 1;
    }
    q
}
