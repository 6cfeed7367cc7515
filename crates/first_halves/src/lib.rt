// Inner: the crates `keeping` and `counting` show the `requires`. The first half of F(n) where n has an odd prime: the
// kept half for r, for whoever measures it; with the signs of an even index and z^t for z, for whoever compares it. The
// other half tells nothing new, and is not made.

#![tactic(auto)]

ghost use Rattle.std.specs.Prelude.{◌≡◌, true, cond, ◌≢◌, ◌+◌, length};
ghost use Rattle.definitions.specs.Series.{firsts, alternate};
ghost use Rattle.definitions.specs.Steps.{entries};
ghost use Rattle.definitions.specs.Numbers.{r_of, m_of};
ghost use Rattle.definitions.specs.KeptHalf.{half_degree};
ghost use Rattle.definitions.specs.Polynomials.{polynomial, degree};
ghost use Rattle.definitions.specs.Requests.{good_index};
ghost use Rattle.definitions.specs.Answer.{coefficients, height, additions_for};
ghost use Rattle.definitions.specs.Halves.{half_of, first_half};
ghost use Rattle.index.specs.Parts.{parts_of};
ghost use Rattle.shapes.specs.Shapes.{InRange};

use index::Parts;
use whole_from_half::spread_by;

// The largest working limit, under which no step is OVER.
const MOST: u64 = i64::MAX as u64;

// What the lower half for r tells of F(n).
#[derive(Drop)]
pub struct Measured {
    pub height: u64,
    pub additions: u64,
}

// The lower half of F(r), in as many entries as it has. Mirror, signs and z^t for z change no magnitude, so its height
// is that of F(n).
pub fn lower_half(n: u64, parts: Parts, a: &mut [i64]) -> Measured
    requires { (parts ≡ parts_of n) × (good_index n ≡ true) × (r_of n ≢ 1)
        × (length a.old ≡ half_degree 1 (r_of n) + 1) }
    ensures value { result ≡ record { height = height 1 n; additions = additions_for 1 n } }
    ensures a_after { a.new ≡ firsts (half_degree 1 (r_of n) + 1) (polynomial 1 (r_of n)) }
{
    let run = kept_half::all_steps(1, n, parts, MOST, a).unwrap();
    let top = peaks::peak_within(a, run.bound);
    Measured {
        height: top.height,
        additions: run.additions,
    }
}

// The signs of an even index, or none.
fn signed(a: &mut [i64], even: bool)
    requires { InRange (length a.old) a.old }
    ensures { a.new
        ≡ firsts (length a.old) (cond even (alternate (entries a.old))
        (entries a.old)) }
{
    if even {
        shapes::alternate(a);
    }
}

// That of F(m), which differs in the signs alone; tells the height of F(n).
fn half_for_m(n: u64, parts: Parts, a: &mut [i64]) -> u64
    requires { (parts ≡ parts_of n) × (good_index n ≡ true) × (r_of n ≢ 1)
        × (length a.old ≡ half_degree 1 (r_of n) + 1) }
    ensures value { result ≡ height 1 n }
    ensures a_after { a.new ≡ firsts (half_degree 1 (r_of n) + 1) (polynomial 1 (m_of n)) }
{
    let measured = lower_half(n, parts, a);
    signed(a, n % 2 == 0);
    measured.height
}

// In as many entries as it has; tells the height of F(n).
pub fn first_half(n: u64, parts: Parts, b: &mut [i64]) -> u64
    requires { (parts ≡ parts_of n) × (good_index n ≡ true) × (r_of n ≢ 1)
        × (length b.old ≡ half_of (degree 1 n + 1)) }
    ensures value { result ≡ height 1 n }
    ensures b_after { b.new ≡ first_half (coefficients 1 n) }
{
    let d = index::half_degree(1, parts.r, parts.free);
    let height = half_for_m(n, parts, &mut b[..d + 1]);
    spread_by(b, d, parts.t as usize);
    height
}
