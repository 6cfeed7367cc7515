// The partial request, once kind and index are good.
ghost use Rattle.std.specs.Prelude.{◌≡◌, length};
ghost use Rattle.answers.specs.Partial as Partial;
ghost use Rattle.kept_half.specs.Halves.{StepsDue};

use answers::{Refusal, Stop};
use divisors::Walk;
use index::Parts;
use kept_half::{Over, make_kept_half};

pub(crate) fn stop_at(kind: u64, n: u64, parts: Parts, j: u64, w: i64, buf: &mut [i64]) -> Stop
    requires { StepsDue kind n parts }
    ensures value { result ≡ Partial.answer kind n j w (length buf.old) }
    ensures buf_after { buf.new ≡ Partial.leaves kind n j w buf.old }
{
    let d = index::half_degree(kind, parts.r, parts.free);
    let walk = Walk::over(parts);
    if walk.due < j {
        return Stop::of(Refusal::Step, 0);
    }
    if w < 1 {
        return Stop::of(Refusal::Limit, 0);
    }
    if buf.len() <= d {
        return Stop::of(Refusal::Short, d as u64);
    }
    let h = d + 1;
    match make_kept_half(&mut buf[..h], walk, kind, j, w.unsigned_abs()) {
        Ok(ran) => Stop {
            code: answers::DONE,
            degree: d as u64,
            additions: ran.additions,
            due: ran.due,
        },
        Err(Over) => Stop::of(Refusal::Over, d as u64),
    }
}
