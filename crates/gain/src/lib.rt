// Inner: the `requires` is shown by `polynomial`. The gain of a polynomial is the sum of its coefficients. It is told
// from n taken apart, without adding them up: for F it is p where n is a power of the prime p (crate `cyclotomic`,
// Gain), which is where m, the product of n's primes, is that prime; and m is prime where phi(m), which is phi(r), is
// m - 1.

#![tactic(auto)]

ghost use Rattle.std.specs.Prelude.{◌≤◌, ◌≡◌, true, nat_abs};
ghost use Rattle.definitions.specs.Requests.{good_index};
ghost use Rattle.definitions.specs.Answer.{gain};
ghost use Rattle.index.specs.Parts.{parts_of};

use index::Parts;

pub fn gain_of(kind: u64, n: u64, parts: Parts) -> i64
    requires { (parts ≡ parts_of n) × (good_index n ≡ true) }
    ensures { (result ≡ gain kind n) × (nat_abs result ≤ 65535) }
{
    let m = parts.m;
    if kind == 1 {
        if n == 1 {
            return 0;
        }
        if parts.free == m - 1 {
            return m as i64;
        }
        return 1;
    }
    if n == 1 { 1 } else { 0 }
}
