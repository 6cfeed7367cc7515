// Whether a number is within a limit.

ghost use Rattle.std.specs.Prelude.{◌≡◌};
ghost use Rattle.definitions.specs.Steps.{in_range};
ghost use Rattle.step_laws.specs.WorkingLimit.{Workable};

// Is v from -w to w?
pub(crate) fn within(w: u64, v: i64) -> bool
    requires { Workable w }
    ensures { result ≡ in_range w v }
{
    let most = w as i64;
    let least = -most;
    least <= v && v <= most
}
