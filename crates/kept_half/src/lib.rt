// Inner: each `requires` is shown by the callers `partial` and `polynomial`. The kept half for an index: the walk over
// r's divisors, and a step for each.

#![tactic(auto)]

mod run;

ghost use Rattle.std.specs.Prelude.{◌+◌, ◌≡◌, length};
ghost use Rattle.definitions.specs.Numbers.{r_of};
ghost use Rattle.definitions.specs.KeptHalf.{half_degree};
ghost use Rattle.definitions.specs.Requests.{divisors_due};
ghost use Rattle.step_laws.specs.WorkingLimit.{Workable};
ghost use Rattle.kept_half.specs.Halves.{StepsDue, KeptHalfIs};

use divisors::Walk;
use index::Parts;
pub use outlined_steps::Over;
pub use run::make_kept_half;

// What a run of steps comes to: the additions, the divisors still due and a bound of the magnitudes.
#[derive(Clone, Copy)]
pub struct Ran {
    pub additions: u64,
    pub due: u64,
    pub bound: u64,
}

// The kept half for n's r after all its divisors' steps, in a slice of D + 1 entries; zeros where a value would pass w.
// That of F of two primes has no magnitude above 1 (crate `flat_for_two_primes`), which spares the look for its height.
pub fn all_steps(kind: u64, n: u64, parts: Parts, w: u64, a: &mut [i64]) -> Result<Ran, Over>
    requires { StepsDue kind n parts × (length a.old ≡ half_degree kind (r_of n) + 1) × Workable w }
    ensures { KeptHalfIs w kind (r_of n) (divisors_due (r_of n)) a.new result }
{
    let walk = Walk::over(parts);
    let all = walk.due;
    let ran = make_kept_half(a, walk, kind, all, w)?;
    if kind == 1 && all == 3 {
        return Ok(Ran { bound: 1, ..ran });
    }
    Ok(ran)
}
