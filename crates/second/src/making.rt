// The second engine's request, once kind, index and height limit are good.
ghost use Rattle.std.specs.Prelude.{◌+◌, ◌*◌, ◌≤◌, ◌≡◌, true, length, pos};
ghost use Rattle.definitions.specs.Requests.{known_kind, good_index};
ghost use Rattle.answers.specs.Second as Second;
ghost use Rattle.index.specs.Parts.{parts_of};
ghost use Rattle.laying_out.specs.Laid.{LaidIs};
ghost use Rattle.whole_from_half.specs.Ready.{Ready};
ghost use Rattle.second.specs.Bounds.{bound_for};

use answers::{Answer, Refusal};
use index::Parts;
use laying_out::{Laid, Tall};

// No coefficient is larger (crate `never_over`), so that two can be added.
const BOUND: u64 = 4611686018427387903;

// F of one or two primes has no magnitude above 1 (crates `never_over` and `flat_for_two_primes`): that spares the look
// for its height.
#[tactic(auto, unfolding(crate::specs::Bounds::bound_for))]
fn bound_of(kind: u64, count: usize) -> u64
    ensures { result ≡ bound_for kind count }
{
    if kind == 1 && count <= 2 { 1 } else { BOUND }
}

// The polynomial of n, or zeros where it is too tall.
fn make(
    b: &mut [i64],
    scratch: &mut [i64],
    kind: u64,
    n: u64,
    parts: Parts,
    h: u64,
) -> Result<Laid, Tall>
    requires { Ready kind n parts b.old × (1 ≤ h) × (2 * n + 16 ≤ length scratch.old) }
    ensures { LaidIs kind n h b.new result }
{
    if parts.r == 1 {
        whole_from_half::without_steps(b, kind, n, parts);
        return Ok(Laid { height: 1, peak: 0 });
    }
    let primes = parts.primes;
    let count = parts.count;
    second_engine::lower_half(b, scratch, kind, primes, count, parts.r, parts.free);
    laying_out::lay_out(b, kind, n, parts, h, bound_of(kind, count))
}

// SHORT, or what the making came to.
pub(crate) fn answer_in(
    kind: u64,
    n: u64,
    parts: Parts,
    h: u64,
    buf: &mut [i64],
    scratch: &mut [i64],
) -> Answer
    requires { (parts ≡ parts_of n) × (known_kind kind ≡ true) × (good_index n ≡ true) × (1 ≤ h) }
    ensures value { result ≡ Second.answer kind n (pos h) (length buf.old) (length scratch.old) }
    ensures buf_after { buf.new ≡ Second.leaves kind n (pos h) buf.old (length scratch.old) }
    ensures scratch_after { scratch.new ≡ Second.scratches kind n (pos h) (length buf.old) scratch.old }
{
    let degree = index::degree_from(kind, n, parts.phi);
    if buf.len() as u64 <= degree {
        return Answer::of(Refusal::Short, degree);
    }
    if (scratch.len() as u64) < 2 * n + 16 {
        return Answer::of(Refusal::Short, degree);
    }
    let size = degree as usize + 1;
    let made = make(&mut buf[..size], scratch, kind, n, parts, h);
    shapes::clear(scratch);
    let Ok(laid) = made else {
        return Answer::of(Refusal::Tall, degree);
    };
    let gain = gain::gain_of(kind, n, parts);
    Answer {
        code: answers::DONE,
        degree,
        additions: 0,
        height: laid.height,
        peak: laid.peak,
        gain,
    }
}
