// Inner: the callers show each `requires`. One coefficient of a product of any two polynomials, the first of at most
// 65,536 entries, by digits to base 2^22: a sum of products of two digits fits, and so do five such sums. Slow; it is
// there for first factors that are not light.

#![tactic(auto)]

ghost use Rattle.std.specs.Prelude.{◌-◌, ◌≤◌, ◌≡◌, length, pos, nat_abs};
ghost use Rattle.std.specs.Int.Signed.{shr_z};
ghost use Rattle.definitions.specs.Integers.{◌⊕◌, ◌⊗◌};
ghost use Rattle.definitions.specs.Series.{◌·◌};
ghost use Rattle.definitions.specs.Steps.{entries};
ghost use Rattle.light_sums.specs.Parts.{base, rest};
ghost use Rattle.light_sums.specs.Told.{told};
ghost use Rattle.light_sums.specs.Terms.{Terms};
ghost use Rattle.digit_sums.specs.Digits.{digit_of, digits, place, number};

use light_sums::{add_product, joined, less_product, plus};

fn above_digit(v: i64) -> i64
    ensures { result ≡ shr_z v base }
{
    v >> 22
}

fn last_digit(v: i64) -> i64
    ensures { result ≡ pos (rest base v) }
{
    less_product(v, above_digit(v), 4194304)
}

fn digit(v: i64, a: usize) -> i64
    ensures { result ≡ digit_of a v }
{
    match a {
        0 => last_digit(v),
        1 => last_digit(above_digit(v)),
        2 => above_digit(above_digit(v)),
        _ => 0,
    }
}

// The sum of the products of f's digits a and b's digits c: 2^16 products of two numbers up to 2^22, so at most 2^60.
fn digit_sum(f: &[i64], b: &[i64], i: usize, from: usize, to: usize, a: usize, c: usize) -> i64
    requires { Terms f.now b.now i from to × (length f.now ≤ 65536) }
    ensures { (result ≡ (digits a (entries f.now) · digits c (entries b.now)) i)
        × (nat_abs result ≤ 1152921504606846976) }
{
    let mut s: i64 = 0;
    for j in from..to {
        s = add_product(s, digit(f[j], a), digit(b[i - j], c));
    }
    s
}

// What stands at the place k: at most five such sums.
fn place_sum(f: &[i64], b: &[i64], i: usize, from: usize, to: usize, k: usize) -> i64
    requires { Terms f.now b.now i from to × (length f.now ≤ 65536) × (k ≤ 4) }
    ensures { (result ≡ place (entries f.now) (entries b.now) i k) × (nat_abs result ≤ 5764607523034234880) }
{
    let mut s: i64 = 0;
    for a in 0..k + 1 {
        s = plus(s, digit_sum(f, b, i, from, to, a, k - a));
    }
    s
}

// The number of what is carried to the place k and what stands from there on: the last digit stays at the place, and
// what is above it, at most 2^41, is carried on.
fn from_place(
    f: &[i64],
    b: &[i64],
    i: usize,
    from: usize,
    to: usize,
    k: usize,
    carry: i64,
) -> Option<i64>
    requires { Terms f.now b.now i from to × (length f.now ≤ 65536) × (k ≤ 4)
        × (nat_abs carry ≤ 2199023255552) }
    ensures { result ≡ told (carry ⊕ number (place (entries f.now) (entries b.now) i) (5 - k) k) }
{
    let c = plus(carry, place_sum(f, b, i, from, to, k));
    if k == 4 {
        return Some(c);
    }
    let v = from_place(f, b, i, from, to, k + 1, above_digit(c))?;
    joined(v, 4194304, last_digit(c))
}

pub fn heavy_sum(f: &[i64], b: &[i64], i: usize, from: usize, to: usize) -> Option<i64>
    requires { Terms f.now b.now i from to × (length f.now ≤ 65536) }
    ensures { result ≡ told ((entries f.now · entries b.now) i) }
{
    from_place(f, b, i, from, to, 0, 0)
}
