// The request of the second engine (`second`): the polynomial from another road. Nothing is asked of the caller.

#![tactic(auto)]

mod making;

ghost use Rattle.std.specs.Prelude.{◌≡◌, length};
ghost use Rattle.answers.specs.Second as Second;

use answers::{Answer, Refusal};

// The polynomial of n, no taller than h, in entries 0 to degree, without a step. The scratch is all zero afterwards, or
// untouched.
pub fn second(kind: u64, n: u64, h: i64, buf: &mut [i64], scratch: &mut [i64]) -> Answer
    ensures value { result ≡ Second.answer kind n h (length buf.old) (length scratch.old) }
    ensures buf_after { buf.new ≡ Second.leaves kind n h buf.old (length scratch.old) }
    ensures scratch_after { scratch.new ≡ Second.scratches kind n h (length buf.old) scratch.old }
{
    if !answers::known_kind(kind) {
        return Answer::of(Refusal::Kind, 0);
    }
    if !answers::good_index(n) {
        return Answer::of(Refusal::Index, 0);
    }
    if h < 1 {
        return Answer::of(Refusal::Limit, 0);
    }
    let parts = index::take_apart(n);
    making::answer_in(kind, n, parts, h.unsigned_abs(), buf, scratch)
}
