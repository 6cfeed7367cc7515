// The partial request (`partial`): the kept half after some of the divisors. Nothing is asked of the caller.

#![tactic(auto)]

mod stop;

ghost use Rattle.std.specs.Prelude.{◌≡◌, length};
ghost use Rattle.answers.specs.Partial as Partial;

use answers::{Refusal, Stop};

// The kept half for n's r after the first j divisors' steps under the working limit w, in entries 0 to D.
pub fn partial(kind: u64, n: u64, j: u64, w: i64, buf: &mut [i64]) -> Stop
    ensures value { result ≡ Partial.answer kind n j w (length buf.old) }
    ensures buf_after { buf.new ≡ Partial.leaves kind n j w buf.old }
{
    if !answers::known_kind(kind) {
        return Stop::of(Refusal::Kind, 0);
    }
    if !answers::good_index(n) {
        return Stop::of(Refusal::Index, 0);
    }
    let parts = index::take_apart(n);
    if parts.r == 1 {
        return Stop::of(Refusal::Index, 0);
    }
    stop::stop_at(kind, n, parts, j, w, buf)
}
