// Inner: nothing is asked, but what comes out is told modulo 2^64, so it is for our own crates. The sum and the
// difference of two numbers modulo 2^64: what a signed number does not hold wraps, and nothing is tested.

#![tactic(auto)]

ghost use Rattle.std.specs.Prelude.{◌≡◌};
ghost use Rattle.std.specs.Int.{w64};
ghost use Rattle.std.proofs.Common.{of_z};
ghost use Rattle.definitions.specs.Integers.{◌⊕◌, ◌⊝◌};
ghost use Rattle.wrapped_sums.specs.Wrapped.{wrap};

// The bits of a number.
pub fn bits_of(x: i64) -> u64
    ensures { result ≡ of_z w64 x }
{
    x.cast_unsigned()
}

pub fn plus(x: i64, y: i64) -> i64
    ensures { result ≡ wrap (x ⊕ y) }
{
    x.wrapping_add(y)
}

pub fn minus(x: i64, y: i64) -> i64
    ensures { result ≡ wrap (x ⊝ y) }
{
    x.wrapping_sub(y)
}
