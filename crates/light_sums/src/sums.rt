// Sums and products that are known to fit.
ghost use Rattle.std.specs.Prelude.{◌≡◌};
ghost use Rattle.std.specs.Int.{w64};
ghost use Rattle.std.proofs.Common.{SFits};
ghost use Rattle.definitions.specs.Integers.{◌⊕◌, ◌⊝◌, ◌⊗◌};

pub fn plus(x: i64, y: i64) -> i64
    requires { SFits w64 (x ⊕ y) }
    ensures { result ≡ x ⊕ y }
{
    x + y
}

pub fn add_product(s: i64, x: i64, y: i64) -> i64
    requires { SFits w64 (x ⊗ y) × SFits w64 (s ⊕ x ⊗ y) }
    ensures { result ≡ s ⊕ x ⊗ y }
{
    s + x * y
}

pub fn less_product(s: i64, x: i64, y: i64) -> i64
    requires { SFits w64 (x ⊗ y) × SFits w64 (s ⊝ x ⊗ y) }
    ensures { result ≡ s ⊝ x ⊗ y }
{
    s - x * y
}
