// A number as two halves: v = 2^32 high + low, the low one from 0 to 2^32 - 1.
ghost use Rattle.std.specs.Prelude.{◌≡◌, pos};
ghost use Rattle.std.specs.Int.{w64};
ghost use Rattle.std.proofs.Common.{SFits};
ghost use Rattle.definitions.specs.Integers.{◌⊕◌, ◌⊗◌};
ghost use Rattle.light_sums.specs.Parts.{half};
ghost use Rattle.light_sums.specs.Told.{told, Joins};
ghost use Rattle.light_sums.specs.Terms.{high_half, low_half};

use crate::sums::{add_product, less_product, plus};

pub(crate) fn high_half(v: i64) -> i64
    ensures { result ≡ high_half v }
{
    v >> 32
}

pub(crate) fn low_half(v: i64) -> i64
    ensures { result ≡ low_half v }
{
    less_product(v, high_half(v), 4294967296)
}

// The number v, but for -2^63, which is outside the range.
pub fn told(v: i64) -> Option<i64>
    ensures { result ≡ told v }
{
    if v == i64::MIN { None } else { Some(v) }
}

// The number that has v above the rest d, to the base `base`; or None, where that is outside the range.
pub fn joined(v: i64, base: i64, d: i64) -> Option<i64>
    requires { Joins base d }
    ensures { result ≡ told (v ⊗ base ⊕ d) }
{
    told(v.checked_mul(base)?.checked_add(d)?)
}

// The number of two halves, the low one of any size; or None, where it is outside the range.
pub(crate) fn whole(high: i64, low: i64) -> Option<i64>
    requires { SFits w64 (high ⊕ high_half low) }
    ensures { result ≡ told (high ⊗ pos half ⊕ low) }
{
    joined(plus(high, high_half(low)), 4294967296, low_half(low))
}
