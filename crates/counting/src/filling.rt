// The heights of F(a) to F(b), each at the entry of its index.
ghost use Rattle.std.specs.Prelude.{◌≡◌, suc, ◌-◌, ◌<◌, ◌≤◌, length, take, drop};
ghost use Rattle.definitions.specs.Answer.{height, additions_for};
ghost use Rattle.counting.specs.Census.{from_to, all_additions};
ghost use Rattle.counting.specs.Passes.{heights_of};

use first_halves::{Measured, lower_half};
use index::take_apart;

// What F(n) measures, by the lower half for its r, which is made in the entries before n.
fn measure(n: u64, work: &mut [i64]) -> Measured
    requires { (0 < n) × (n ≤ 4095) × (n < length work.old) }
    ensures value { result ≡ record { height = height 1 n; additions = additions_for 1 n } }
    ensures work_len_unchanged { length work.new ≡ length work.old }
    ensures work_unchanged { drop n work.new ≡ drop n work.old }
{
    let parts = take_apart(n);
    if parts.r == 1 {
        return Measured {
            height: 1,
            additions: 0,
        };
    }
    let half = index::half_degree(1, parts.r, parts.free) + 1;
    lower_half(n, parts, &mut work[..half])
}

// From the largest index down: a kept half has fewer entries than its index, so the heights that are known stay.
pub(crate) fn fill(a: usize, b: usize, work: &mut [i64]) -> u64
    requires { (0 < a) × (a ≤ b) × (b ≤ 4095) × (b < length work.old) }
    ensures value { result ≡ all_additions (from_to a b) }
    ensures work_len_unchanged { length work.new ≡ length work.old }
    ensures work_after { take (suc b - a) (drop a work.new) ≡ heights_of (from_to a b) }
{
    let mut additions = 0;
    for n in (a..b + 1).rev() {
        let measured = measure(n as u64, work);
        work[n] = measured.height as i64;
        additions += measured.additions;
    }
    additions
}
