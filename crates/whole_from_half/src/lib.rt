// Inner: each `requires` is shown by `polynomial`. From the lower half for r to the polynomial of n, in place:
// `squarefree_from_half` makes that of m, and here z^t is put for z.

#![tactic(auto)]

ghost use Rattle.std.specs.Prelude.{◌+◌, ◌*◌, ◌≤◌, ◌≡◌, length};
ghost use Rattle.definitions.specs.Series.{firsts, spread};
ghost use Rattle.definitions.specs.Steps.{entries};
ghost use Rattle.definitions.specs.Numbers.{r_of};
ghost use Rattle.definitions.specs.Answer.{coefficients};
ghost use Rattle.squarefree_from_half.specs.Growth.{Lower};
ghost use Rattle.whole_from_half.specs.Ready.{Ready};

use index::Parts;

// z^t for z; where t is 1 nothing moves.
pub fn spread_by(b: &mut [i64], top: usize, t: usize)
    requires { (1 ≤ t) × (length b.old ≡ top * t + 1) }
    ensures { b.new ≡ firsts (length b.old) (spread t (entries b.old)) }
{
    if t == 1 {
        return;
    }
    shapes::spread(b, top, t);
}

// The polynomial from the lower half for r: that of m, and z^t for z.
pub fn from_lower_half(b: &mut [i64], kind: u64, n: u64, parts: Parts)
    requires { Ready kind n parts b.old × Lower kind (r_of n) b.old }
    ensures { b.new ≡ coefficients kind n }
{
    let top = index::degree_from(kind, parts.m, parts.free) as usize;
    let size = top + 1;
    squarefree_from_half::of_m(&mut b[..size], kind, parts.r, parts.free, n % 2 == 0);
    spread_by(b, top, parts.t as usize);
}

// r = 1: F(1), F(2), I(1) or I(2) with z^t for z.
pub fn without_steps(b: &mut [i64], kind: u64, n: u64, parts: Parts)
    requires { Ready kind n parts b.old × (r_of n ≡ 1) }
    ensures { b.new ≡ coefficients kind n }
{
    let top = index::degree_from(kind, parts.m, parts.free) as usize;
    let size = top + 1;
    squarefree_from_half::of_one_or_two(&mut b[..size], kind, n % 2 == 0);
    spread_by(b, top, parts.t as usize);
}
