// The polynomial request, once kind, index and both limits are good.
ghost use Rattle.std.specs.Prelude.{◌≡◌, true, ◌≢◌, ◌≤◌, length, pos};
ghost use Rattle.definitions.specs.Numbers.{r_of};
ghost use Rattle.definitions.specs.Requests.{known_kind, good_index};
ghost use Rattle.answers.specs.Polynomial as Polynomial;
ghost use Rattle.index.specs.Parts.{parts_of};
ghost use Rattle.step_laws.specs.WorkingLimit.{Workable};
ghost use Rattle.whole_from_half.specs.Ready.{Ready};
ghost use Rattle.polynomial.specs.Making.{MadeIs};

use answers::{Answer, Refusal};
use index::Parts;
use laying_out::lay_out;

// What is told of a polynomial that was made.
#[derive(Drop)]
pub(crate) struct Made {
    pub additions: u64,
    pub height: u64,
    pub peak: u64,
}

// r > 1: the kept half after all divisors, and the polynomial laid out from it.
fn make_by_steps(
    b: &mut [i64],
    kind: u64,
    n: u64,
    parts: Parts,
    h: u64,
    w: u64,
) -> Result<Made, Refusal>
    requires { Ready kind n parts b.old × (r_of n ≢ 1) × Workable w }
    ensures { MadeIs kind n h w b.new result }
{
    let half = index::half_degree(kind, parts.r, parts.free) + 1;
    let Ok(run) = kept_half::all_steps(kind, n, parts, w, &mut b[..half]) else {
        shapes::clear(b);
        return Err(Refusal::Over);
    };
    let laid = lay_out(b, kind, n, parts, h, run.bound)?;
    Ok(Made {
        additions: run.additions,
        height: laid.height,
        peak: laid.peak,
    })
}

// The polynomial of n, or zeros and why it is refused.
fn make(b: &mut [i64], kind: u64, n: u64, parts: Parts, h: u64, w: u64) -> Result<Made, Refusal>
    requires { Ready kind n parts b.old × (1 ≤ h) × Workable w }
    ensures { MadeIs kind n h w b.new result }
{
    if parts.r == 1 {
        whole_from_half::without_steps(b, kind, n, parts);
        return Ok(Made {
            additions: 0,
            height: 1,
            peak: 0,
        });
    }
    make_by_steps(b, kind, n, parts, h, w)
}

// SHORT, or what the making came to.
pub(crate) fn answer_in(kind: u64, n: u64, parts: Parts, h: u64, w: u64, buf: &mut [i64]) -> Answer
    requires { (parts ≡ parts_of n) × (known_kind kind ≡ true) × (good_index n ≡ true) × (1 ≤ h) × Workable w }
    ensures value { result ≡ Polynomial.answer kind n (pos h) (pos w) (length buf.old) }
    ensures buf_after { buf.new ≡ Polynomial.leaves kind n (pos h) (pos w) buf.old }
{
    let degree = index::degree_from(kind, n, parts.phi);
    if buf.len() as u64 <= degree {
        return Answer::of(Refusal::Short, degree);
    }
    let size = degree as usize + 1;
    match make(&mut buf[..size], kind, n, parts, h, w) {
        Err(refusal) => Answer::of(refusal, degree),
        Ok(made) => Answer {
            code: answers::DONE,
            degree,
            additions: made.additions,
            height: made.height,
            peak: made.peak,
            gain: gain::gain_of(kind, n, parts),
        },
    }
}
