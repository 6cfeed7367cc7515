// Inner: the callers `polynomial` and `second` show the `requires`. What both engines end with, once the lower half for
// r stands there: its height and its peak, and the polynomial of n laid out, or zeros where it is too tall.

#![tactic(auto)]

ghost use Rattle.std.specs.Prelude.{◌+◌, ◌≡◌, take};
ghost use Rattle.definitions.specs.Numbers.{r_of};
ghost use Rattle.definitions.specs.KeptHalf.{half_degree};
ghost use Rattle.definitions.specs.Steps.{entries};
ghost use Rattle.step_laws.specs.Bound.{Bounded};
ghost use Rattle.squarefree_from_half.specs.Growth.{Lower};
ghost use Rattle.whole_from_half.specs.Ready.{Ready};
ghost use Rattle.answers.specs.declared.Refusal.TheVariants as R;
ghost use Rattle.laying_out.specs.Laid.{LaidIs};

use answers::Refusal;
use index::Parts;

// The height of the polynomial that was laid out, and its peak.
#[derive(Drop)]
pub struct Laid {
    pub height: u64,
    pub peak: u64,
}

// The polynomial is taller than the limit.
#[derive(Clone, Copy, Debug, PartialEq, Eq)]
pub struct Tall;

impl From<Tall> for Refusal {
    ghost from_gives = { λ _ refusal. refusal ≡ R.Tall };

    fn from(_tall: Tall) -> Refusal {
        Refusal::Tall
    }
}

// The height is that of the lower half, so a polynomial too tall is never laid out; the first peak is that of the lower
// half, t times as far up. No magnitude is above `bound`.
pub fn lay_out(
    b: &mut [i64],
    kind: u64,
    n: u64,
    parts: Parts,
    h: u64,
    bound: u64,
) -> Result<Laid, Tall>
    requires { Ready kind n parts b.old × Lower kind (r_of n) b.old
        × Bounded bound (entries (take (half_degree kind (r_of n) + 1) b.old)) }
    ensures { LaidIs kind n h b.new result }
{
    let half = index::half_degree(kind, parts.r, parts.free) + 1;
    let top = peaks::peak_within(&b[..half], bound);
    let height = top.height;
    if h < height {
        shapes::clear(b);
        return Err(Tall);
    }
    whole_from_half::from_lower_half(b, kind, n, parts);
    let t = parts.t;
    let peak = top.place * t;
    Ok(Laid { height, peak })
}
