// The product with F(n): by steps on numbers modulo 2^64, where it is known that no coefficient leaves the range, or
// multiplied out.
ghost use Rattle.std.specs.Prelude.{◌≡◌, true, false, suc, ◌<◌, is_ok, length, take};
ghost use Rattle.definitions.specs.Numbers.{phi};
ghost use Rattle.definitions.specs.Requests.{good_index};
ghost use Rattle.index.specs.Parts.{parts_of};
ghost use Rattle.next_factor.specs.Times.{Asked, Turns, Multiplied, factor, Weighs, Serve};

use crate::weighing::known_weight;
use crate::{MOST, product_fits};
use exact_products::Over;
use index::Parts;

// Whether steps serve, by a bound of the sum of F(n)'s magnitudes.
fn by_steps(n: u64, height: u64, weight: u64) -> bool
    requires { Weighs n weight }
    ensures { result ≡ true → Serve n height }
{
    if n == 1 {
        return false;
    }
    product_fits(height, weight)
}

// F(n) in the first entries of the scratch, and how many it has. No request for it is refused.
fn make_factor(scratch: &mut [i64], n: u64) -> usize
    requires { (good_index n ≡ true) × (phi n < length scratch.old) }
    ensures { (result ≡ suc (phi n)) × (take (suc (phi n)) scratch.new ≡ factor n) }
{
    let made = polynomial::polynomial(1, n, MOST as i64, MOST as i64, scratch);
    made.degree as usize + 1
}

// Whether steps serve; F(n) is made only where that is not known beforehand.
fn steps_serve(scratch: &mut [i64], n: u64, parts: Parts, height: u64) -> bool
    requires { (good_index n ≡ true) × (parts ≡ parts_of n) × (phi n < length scratch.old) }
    ensures { (result ≡ true → Serve n height) × (result ≡ false → take (suc (phi n)) scratch.new ≡ factor n) }
{
    if by_steps(n, height, known_weight(n, parts)) {
        return true;
    }
    let size = make_factor(scratch, n);
    by_steps(n, height, exact_products::weight_of(&scratch[..size]))
}

// The product as far as b goes; or that a coefficient of that is out of range.
fn times_lower(
    b: &mut [i64],
    scratch: &mut [i64],
    n: u64,
    parts: Parts,
    have: usize,
    height: u64,
) -> Result<(), Over>
    requires { Asked n parts b.old have height × (phi n < length scratch.old) }
    ensures { Multiplied n b.old b.new (is_ok result) }
{
    if steps_serve(scratch, n, parts, height) {
        factor_steps::times_factor(b, n, parts);
        return Ok(());
    }
    let size = parts.phi as usize + 1;
    exact_products::multiply(b, &scratch[..size], have)
}

// The product, or that a coefficient is out of range: its upper half mirrors the lower.
pub(crate) fn times(
    b: &mut [i64],
    scratch: &mut [i64],
    n: u64,
    parts: Parts,
    have: usize,
    height: u64,
    negate: bool,
) -> Result<(), Over>
    requires { Asked n parts b.old have height × Turns n b.old have negate × (phi n < length scratch.old) }
    ensures { Multiplied n b.old b.new (is_ok result) }
{
    let half = (b.len() + 1) / 2;
    times_lower(&mut b[..half], scratch, n, parts, have, height)?;
    shapes::mirror(b, negate);
    Ok(())
}
