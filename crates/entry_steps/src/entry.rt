// A step at one entry: the entry with the one that stands d before it added, or taken away.

ghost use Rattle.std.specs.Prelude.{◌≡◌, cond, ℕ, ◌+◌, ◌≤◌, ◌<◌, length, get_or, set};
ghost use Rattle.std.specs.Int.{w64};
ghost use Rattle.std.proofs.Common.{SFits};
ghost use Rattle.definitions.specs.Integers.{0ℤ};
ghost use Rattle.definitions.specs.Steps.{entries, in_range};
ghost use Rattle.step_laws.specs.WorkingLimit.{Workable};
ghost use Rattle.entry_steps.specs.Sorts.{sort_means};
ghost use Rattle.entry_steps.specs.Passes.{new_value, new_entry, put_four};
ghost use Rattle.entry_steps.specs.Asked.{AskedAt};

use crate::Sort;
use crate::ways::Test;

// What a step makes of an entry x and the one y that stands d before it.
pub fn new_value(sort: Sort, x: i64, y: i64) -> i64
    requires { SFits w64 (new_value (sort_means sort) x y) }
    ensures { result ≡ new_value (sort_means sort) x y }
{
    match sort {
        Sort::Comb => x - y,
        Sort::Accumulate => x + y,
    }
}

// Four values, at the places from i on.
pub fn put_four(a: &mut [i64], i: usize, v0: i64, v1: i64, v2: i64, v3: i64)
    requires { i + 4 ≤ length a.old }
    ensures { a.new ≡ put_four a.old i v0 v1 v2 v3 }
{
    a[i] = v0;
    a[i + 1] = v1;
    a[i + 2] = v2;
    a[i + 3] = v3;
}

// The step at one place.
pub fn step_entry(sort: Sort, a: &mut [i64], i: usize, d: usize)
    requires { (d ≤ i) × (i < length a.old) × SFits w64 (new_entry (sort_means sort) d a.old i) }
    ensures { a.new ≡ set a.old i (new_entry (sort_means sort) d a.old i) }
{
    a[i] = new_value(sort, a[i], a[i - d]);
}

// The step at one place where its value is within w, each entry read once; tells whether it is. That an entry fits its
// type is known where it is read, and an undoing needs it.
pub fn step_entry_within<T: Test>(sort: Sort, w: u64, a: &mut [i64], i: usize, d: usize) -> bool
    requires { (d ≤ i) × (i < length a.old) × Workable w × AskedAt T.way w (sort_means sort) d a.old i }
    ensures value { (result ≡ in_range w (new_entry (sort_means sort) d a.old i)) × SFits w64 (entries a.old i) }
    ensures a_after { a.new
        ≡ cond result (set a.old i (new_entry (sort_means sort) d a.old i)) a.old }
{
    let x = a[i];
    let y = a[i - d];
    if !T::passes(sort, w, x, y) {
        return false;
    }
    a[i] = new_value(sort, x, y);
    true
}

// The sums of d neighbouring chains begin with the chains' first entries, those from c on.
pub fn first_row(s: &mut [i64], a: &[i64], c: usize, d: usize)
    requires { (d ≤ length s.old) × (c + d ≤ length a.now) }
    ensures { (j : ℕ) → j < d → get_or s.new j 0ℤ ≡ get_or a.now (c + j) 0ℤ }
{
    s[..d].copy_from_slice(&a[c..c + d]);
}
