// The coefficients after the header of a record, where their width is known to the compiler: a loop over them that never
// stops is made one of vectors.
ghost use Rattle.std.specs.Prelude.{◌≡◌, ◌+◌, ◌*◌, ◌^◌, ◌<◌, ◌≤◌, true, List, ℤ, length, drop};
ghost use Rattle.std.proofs.lemmas.List.Edits.{sets};
ghost use Rattle.definitions.specs.Answer.{height_of};
ghost use Rattle.definitions.specs.Steps.{entries};
ghost use Rattle.widths.specs.Numbers.{coefficients_at, signed_of, widths, one_of};
ghost use Rattle.widths.specs.Classes.{class};

use super::bytes::get;
use std::marker::Model;
use widths::{class_of, signed_of};

// So many coefficients in W bytes each. Clauses see what they stand for.
#[derive(Drop)]
pub struct Body<'a, const W: usize> {
    bytes: &'a [u8],
    count: usize,
}

impl<'a, const W: usize> Model for Body<'a, W> {
    ghost Value = { List ℤ };

    ghost view = { λ b. coefficients_at W b.count (drop 10 b.bytes.now) };

    ghost invariant = { λ b. (one_of widths W ≡ true) × (10 + b.count * W ≤ length b.bytes.now) };
}

impl<'a, const W: usize> Body<'a, W> {
    pub fn new(bytes: &'a [u8], count: usize) -> Self
        requires { (one_of widths W ≡ true) × (10 + count * W ≤ length bytes.now) }
        ensures { result ≡ coefficients_at W count (drop 10 bytes.now) }
    {
        Body { bytes, count }
    }

    pub fn len(&self) -> usize
        ensures { result ≡ length self.now }
    {
        self.count
    }

    // Entry i, as it stands there.
    pub fn number(&self, i: usize) -> u64
        requires { i < length self.now }
        ensures { (one_of widths W ≡ true) × (signed_of W result ≡ entries self.now i) × (result < 2 ^ (8 * W)) }
    {
        get(self.bytes, 10 + i * W, W)
    }

    // The class of the height: the classes of all, bit upon bit.
    pub fn class(&self) -> u8
        ensures { result ≡ class W (height_of self.now) }
    {
        let mut all: u8 = 0;
        for i in 0..self.len() {
            all |= class_of(self.number(i), W);
        }
        all
    }

    // Reading, the store: all of them, in the first places.
    pub fn fill(&self, coeffs: &mut [i64])
        requires { length self.now ≤ length coeffs.old }
        ensures { coeffs.new ≡ sets coeffs.old 0 self.now }
    {
        for (i, c) in coeffs[..self.len()].iter_mut().enumerate() {
            *c = signed_of(self.number(i), W);
        }
    }
}

// The k coefficients after the header, in the first places.
pub fn fill(bytes: &[u8], w: usize, k: usize, coeffs: &mut [i64])
    requires { (one_of widths w ≡ true) × (10 + k * w ≤ length bytes.now) × (k ≤ length coeffs.old) }
    ensures { coeffs.new ≡ sets coeffs.old 0 (coefficients_at w k (drop 10 bytes.now)) }
{
    match w {
        1 => Body::<1>::new(bytes, k).fill(coeffs),
        2 => Body::<2>::new(bytes, k).fill(coeffs),
        4 => Body::<4>::new(bytes, k).fill(coeffs),
        _ => Body::<8>::new(bytes, k).fill(coeffs),
    }
}
