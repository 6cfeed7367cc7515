// The cascade request, once the list and the limit are good.
ghost use Rattle.std.specs.Prelude.{◌≡◌, ◌<◌, length, pos};
ghost use Rattle.definitions.specs.Requests.{zeros};
ghost use Rattle.definitions.specs.Cascades.{total_degree};
ghost use Rattle.answers.specs.Cascade as Cascade;
ghost use Rattle.cascade.specs.Asked.{SizesOf};
ghost use Rattle.cascade.specs.Making.{Ready, Roomy, ProductIs, making_code, laid};

use crate::asked::Sizes;
use answers::{Answer, Refusal};
use next_factor::{Over, SoFar, first_factor, take_factor};

// The product, one factor after the other; it stops where one is out of range.
fn make(indices: &[u64], b: &mut [i64], scratch: &mut [i64]) -> Result<SoFar, Over>
    requires { (0 < length indices.now) × Roomy indices.now b.old scratch.old }
    ensures product_is { ProductIs indices.now b.new result }
    ensures scratch_len_unchanged { length scratch.new ≡ length scratch.old }
{
    shapes::clear(b);
    let mut so = first_factor(b, indices[0]);
    for i in 1..indices.len() {
        so = take_factor(b, scratch, indices[i], so)?;
    }
    Ok(so)
}

// OVER, TALL or the product, in as many entries as it has. The scratch is cleared whatever comes.
fn answer_of(indices: &[u64], total: u64, h: u64, b: &mut [i64], scratch: &mut [i64]) -> Answer
    requires { (total ≡ total_degree indices.now) × (0 < length indices.now)
        × Roomy indices.now b.old scratch.old }
    ensures value { result ≡ Cascade.answered indices.now (making_code indices.now h) }
    ensures b_after { b.new ≡ laid indices.now (making_code indices.now h) }
    ensures scratch_after { scratch.new ≡ zeros (length scratch.old) }
{
    let made = make(indices, b, scratch);
    shapes::clear(scratch);
    let Ok(made) = made else {
        shapes::clear(b);
        return Answer::of(Refusal::Over, total);
    };
    if h < made.height {
        shapes::clear(b);
        return Answer::of(Refusal::Tall, total);
    }
    Answer {
        code: answers::DONE,
        degree: total,
        additions: 0,
        height: made.height,
        peak: made.peak,
        gain: made.gain as i64,
    }
}

// SHORT, or what the making comes to.
pub(crate) fn answer_in(
    indices: &[u64],
    sizes: Sizes,
    h: u64,
    buf: &mut [i64],
    scratch: &mut [i64],
) -> Answer
    requires { SizesOf indices.now sizes × Ready indices.now h }
    ensures value { result
        ≡ Cascade.answer indices.now (pos h) (length buf.old) (length scratch.old) }
    ensures buf_after { buf.new
        ≡ Cascade.leaves indices.now (pos h) buf.old (length scratch.old) }
    ensures scratch_after { scratch.new
        ≡ Cascade.scratches indices.now (pos h) (length buf.old) scratch.old }
{
    let total = sizes.total;
    if buf.len() as u64 <= total {
        return Answer::of(Refusal::Short, total);
    }
    if scratch.len() as u64 <= sizes.longest {
        return Answer::of(Refusal::Short, total);
    }
    let size = total as usize + 1;
    answer_of(indices, total, h, &mut buf[..size], scratch)
}
