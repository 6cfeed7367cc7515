// The request for a polynomial (`polynomial`). Nothing is asked of the caller.

#![tactic(auto)]

mod making;

ghost use Rattle.std.specs.Prelude.{◌≡◌, length};
ghost use Rattle.answers.specs.Polynomial as Polynomial;

use answers::{Answer, Refusal};

// The polynomial of n, no taller than h and made of steps within the working limit w, in entries 0 to degree.
pub fn polynomial(kind: u64, n: u64, h: i64, w: i64, buf: &mut [i64]) -> Answer
    ensures value { result ≡ Polynomial.answer kind n h w (length buf.old) }
    ensures buf_after { buf.new ≡ Polynomial.leaves kind n h w buf.old }
{
    if !answers::known_kind(kind) {
        return Answer::of(Refusal::Kind, 0);
    }
    if !answers::good_index(n) {
        return Answer::of(Refusal::Index, 0);
    }
    if h < 1 {
        return Answer::of(Refusal::Limit, 0);
    }
    if w < 1 {
        return Answer::of(Refusal::Limit, 0);
    }
    let parts = index::take_apart(n);
    making::answer_in(kind, n, parts, h.unsigned_abs(), w.unsigned_abs(), buf)
}
