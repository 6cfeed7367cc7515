// The request for a cascade (`cascade`): the product of the F of some indices. Nothing is asked of the caller.

#![tactic(auto)]

mod asked;
mod making;

ghost use Rattle.std.specs.Prelude.{◌≡◌, length};
ghost use Rattle.answers.specs.Cascade as Cascade;

use answers::{Answer, Refusal};

// The product of F(n) for the n of a list, no taller than h, in entries 0 to its degree. The scratch is all zero
// afterwards, or untouched.
pub fn cascade(indices: &[u64], h: i64, buf: &mut [i64], scratch: &mut [i64]) -> Answer
    ensures value { result
        ≡ Cascade.answer indices.now h (length buf.old) (length scratch.old) }
    ensures buf_after { buf.new
        ≡ Cascade.leaves indices.now h buf.old (length scratch.old) }
    ensures scratch_after { scratch.new
        ≡ Cascade.scratches indices.now h (length buf.old) scratch.old }
{
    if indices.len() == 0 {
        return Answer::of(Refusal::List, 0);
    }
    if 8 < indices.len() {
        return Answer::of(Refusal::List, 0);
    }
    let Some(sizes) = asked::sizes_of(indices) else {
        return Answer::of(Refusal::Index, 0);
    };
    if 65535 < sizes.total {
        return Answer::of(Refusal::List, 0);
    }
    if h < 1 {
        return Answer::of(Refusal::Limit, 0);
    }
    making::answer_in(indices, sizes, h.unsigned_abs(), buf, scratch)
}
