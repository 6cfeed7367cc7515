// A row of an accumulate of entries that come again: an entry is the sum of the old one, which stands a multiple of the
// period before it, and of the new one d before it. So it is written once, and not read before.
ghost use Rattle.std.specs.Prelude.{ℕ, ◌+◌, ◌-◌, ◌≤◌, ◌<◌, length};
ghost use Rattle.std.specs.Int.{w64};
ghost use Rattle.std.proofs.Common.{SFits};
ghost use Rattle.definitions.specs.Integers.{◌⊕◌};
ghost use Rattle.definitions.specs.Steps.{entries};
ghost use Rattle.repeats.specs.Repeats.{SummedTo};

// From `from` up to `to`, each entry is the sum of those x and d before it, which lie below `from`.
pub(crate) fn sum_row(a: &mut [i64], x: usize, d: usize, from: usize, to: usize)
    requires from_le_to { (from ≤ to) × (to ≤ length a.old) × (x ≤ from) × (d ≤ from) × (to ≤ from + x) × (to ≤ from + d) }
    requires by_index { (k : ℕ) → from ≤ k → k < to → SFits w64 (entries a.old (k - x) ⊕ entries a.old (k - d)) }
    ensures { SummedTo x d from to a.old a.new }
{
    for k in from..to {
        a[k] = a[k - x] + a[k - d];
    }
}
