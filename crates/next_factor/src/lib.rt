// Inner: each `requires` is shown by the caller `cascade`. A product of some F, and one factor more: the product is
// multiplied by it in place, and its F(n) is made in the scratch only where that is needed.

#![tactic(auto)]

mod times;
mod weighing;

ghost use Rattle.std.specs.Prelude.{◌≡◌, true, false, cond, not, ◌*◌, ◌<◌, eqb, leb, length};
ghost use Rattle.definitions.specs.Numbers.{phi};
ghost use Rattle.definitions.specs.Steps.{largest};
ghost use Rattle.definitions.specs.Requests.{good_index, zeros};
ghost use Rattle.index.specs.Parts.{parts_of};
ghost use Rattle.next_factor.specs.Taking.{SizeIs, First, Known, Room, Taken};

pub use exact_products::Over;
use gain::gain_of;
use index::Parts;
use times::times;

// A product so far: whether its upper half is the negative of the lower, turned round; how many entries it has, its
// height, peak and gain.
#[derive(Clone, Copy)]
pub struct SoFar {
    pub turned: bool,
    pub have: usize,
    pub height: u64,
    pub peak: u64,
    pub gain: u64,
}

// F(n), before it is made: its degree and its gain.
#[derive(Drop)]
pub(crate) struct Size {
    pub degree: usize,
    pub gain: u64,
}

// The largest coefficient, and the largest gain.
pub(crate) const MOST: u64 = 9223372036854775807;

// Is the product of two numbers at most MOST?
pub(crate) fn product_fits(a: u64, b: u64) -> bool
    ensures { result ≡ leb (a * b) largest }
{
    a == 0 || b <= MOST / a
}

// F(1) changes the sign of the upper half.
fn turned_by(n: u64, turned: bool) -> bool
    ensures { result ≡ cond (eqb n 1) (not turned) turned }
{
    if n == 1 { !turned } else { turned }
}

fn size_of(n: u64, parts: Parts) -> Size
    requires { (good_index n ≡ true) × (parts ≡ parts_of n) }
    ensures { SizeIs n result }
{
    Size {
        degree: parts.phi as usize,
        gain: gain_of(1, n, parts).unsigned_abs(),
    }
}

// The first factor, in a slice of zeros: its F(n), as the request for it tells.
pub fn first_factor(b: &mut [i64], n: u64) -> SoFar
    requires { (good_index n ≡ true) × (phi n < length b.old) × (b.old ≡ zeros (length b.old)) }
    ensures { First n b.old b.new result }
{
    let made = polynomial::polynomial(1, n, MOST as i64, MOST as i64, b);
    SoFar {
        turned: n == 1,
        have: made.degree as usize + 1,
        height: made.height,
        peak: made.peak,
        gain: made.gain.unsigned_abs(),
    }
}

// One factor more; or that the gain or a coefficient is out of range.
pub fn take_factor(b: &mut [i64], scratch: &mut [i64], n: u64, so: SoFar) -> Result<SoFar, Over>
    requires { Known b.old so × Room n b.old scratch.old so }
    ensures taken { Taken n b.old so b.new result }
    ensures scratch_len_unchanged { length scratch.new ≡ length scratch.old }
{
    let parts = index::take_apart(n);
    let size = size_of(n, parts);
    let before = so.have;
    let gain = size.gain;
    if !product_fits(so.gain, gain) {
        return Err(Over);
    }
    let have = before + size.degree;
    let turned = turned_by(n, so.turned);
    times(&mut b[..have], scratch, n, parts, before, so.height, turned)?;
    let top = heights::peak(&b[..have]);
    Ok(SoFar {
        turned,
        have,
        height: top.height,
        peak: top.place,
        gain: so.gain * gain,
    })
}
