// How much F(n)'s magnitudes can add up to, told before F(n) is made: it has so many terms, and none is larger than
// crate `never_over` promises of every value that the steps of n make.
ghost use Rattle.std.specs.Prelude.{◌≡◌, true, ◌<◌, ◌≤◌, IfSome};
ghost use Rattle.definitions.specs.Requests.{good_index};
ghost use Rattle.definitions.specs.Answer.{height};
ghost use Rattle.index.specs.Parts.{parts_of};
ghost use Rattle.next_factor.specs.Times.{Weighs};

use index::Parts;

// F(n) is no taller: 1, 2 p, 8 r and 128 p r^3 by the number of odd primes, with p at most 255 and 15. With four odd
// primes and a large r, and with five, nothing is known, or too little to be of use.
fn known_height(n: u64, parts: Parts) -> Option<u64>
    requires { (good_index n ≡ true) × (parts ≡ parts_of n) }
    ensures { IfSome result (λ most. (height 1 n ≤ most) × (most < 140737488355328)) }
{
    let r = parts.r;
    match parts.count {
        0 | 1 => Some(1),
        2 => Some(510),
        3 => Some(8 * r),
        4 if r < 4096 => Some(1920 * (r * r * r)),
        _ => None,
    }
}

// A bound of the sum of F(n)'s magnitudes, or 2^63.
pub(crate) fn known_weight(n: u64, parts: Parts) -> u64
    requires { (good_index n ≡ true) × (parts ≡ parts_of n) }
    ensures { Weighs n result }
{
    match known_height(n, parts) {
        Some(most) => (parts.phi + 1) * most,
        None => 9223372036854775808,
    }
}
