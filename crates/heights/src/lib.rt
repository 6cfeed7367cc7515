// The magnitude of a number, and of a slice the height, which is the largest magnitude among its entries, with the
// lowest place where it stands; both are 0 for an empty one. Nothing is asked beforehand: -2^63, whose magnitude is no
// i64, is measured too. `above` is inner: the crate `peaks` uses it, and shows the `requires`.

#![tactic(auto)]

ghost use Rattle.std.specs.Prelude.{◌≡◌, ◌≤◌, max, min, length, nat_abs};
ghost use Rattle.definitions.specs.Answer.{height_of, peak_of};
ghost use Rattle.heights.specs.Above.{NextAbove};

// A height and the lowest place where it stands.
#[derive(Drop)]
pub struct Top {
    pub height: u64,
    pub place: u64,
}

pub fn magnitude(x: i64) -> u64
    ensures { result ≡ nat_abs x }
{
    x.unsigned_abs()
}

pub fn larger(a: u64, b: u64) -> u64
    ensures { result ≡ max a b }
{
    a.max(b)
}

pub fn smaller(a: u64, b: u64) -> u64
    ensures { result ≡ min a b }
{
    a.min(b)
}

// The first place from `from` on with a magnitude above h, or the end. A loop that can stop is not made one of vectors,
// in which this processor's plain instructions compare 64-bit numbers slowly.
pub fn above(coeffs: &[i64], from: usize, h: u64) -> usize
    requires { from ≤ length coeffs.now }
    ensures { NextAbove h coeffs.now from result }
{
    for i in from..coeffs.len() {
        let x = coeffs[i];
        if h < magnitude(x) {
            return i;
        }
    }
    coeffs.len()
}

// From one larger magnitude to the next; the last one found is the lowest that large.
pub fn peak(coeffs: &[i64]) -> Top
    ensures { result ≡ record { height = height_of coeffs.now; place = peak_of coeffs.now } }
{
    let mut h: u64 = 0;
    let mut p: usize = 0;
    let mut i = above(coeffs, 0, h);
    // Stays a while: it goes from place to place that `above` finds, and no range or iterator says which come.
    while i < coeffs.len() {
        h = magnitude(coeffs[i]);
        p = i;
        i = above(coeffs, i + 1, h);
    }
    Top {
        height: h,
        place: p as u64,
    }
}
