// n taken apart (its distinct odd primes, r, m, t and phi) and the degree of a kind, for every number that the types
// have. Nothing is asked of the caller: above 65,535 the answer is that for 0, which has no odd prime and degree 0.

#![tactic(auto)]

ghost use Rattle.std.specs.Prelude.{◌*◌, ◌-◌, ◌/◌, ◌<◌, ◌≤◌, ◌≡◌, cond, eqb, ltb};
ghost use Rattle.definitions.specs.Numbers.{divides};
ghost use Rattle.definitions.specs.Polynomials.{degree};
ghost use Rattle.index.specs.Parts.{parts_of, taken_apart};

use sieve::odd_primes;

// n taken apart: the distinct odd primes, ascending, with zeros after them; how many; r, m and t; `free` is phi(r), and
// `phi` is phi(n).
// Stays an array with a count: it is copied from step to step, and the kit's ArrayVec is not Copy.
#[derive(Clone, Copy)]
pub struct Parts {
    pub primes: [u64; 5],
    pub count: usize,
    pub r: u64,
    pub m: u64,
    pub t: u64,
    pub free: u64,
    pub phi: u64,
}

// m: r where n is odd, 2 r where it is even
fn base(n: u64, r: u64) -> u64
    requires { r ≤ 65535 }
    ensures { result ≡ cond (divides 2 n) (2 * r) r }
{
    if n % 2 == 0 { 2 * r } else { r }
}

// The parts of an index from 1 to 65,535.
fn parts_of(n: u64) -> Parts
    requires { (0 < n) × (n ≤ 65535) }
    ensures { result ≡ parts_of n }
{
    let odd = odd_primes(n);
    let primes = odd.primes;
    let r = odd.product;
    let m = base(n, r);
    let t = n / m;
    Parts {
        primes,
        count: odd.count,
        r,
        m,
        t,
        free: odd.free,
        phi: odd.free * t,
    }
}

// The parts of 0.
fn parts_of_none() -> Parts
    ensures { result ≡ parts_of 0 }
{
    let primes = [0; 5];
    Parts {
        primes,
        count: 0,
        r: 1,
        m: 2,
        t: 0,
        free: 1,
        phi: 0,
    }
}

// n taken apart.
pub fn take_apart(n: u64) -> Parts
    ensures { result ≡ taken_apart n }
{
    if !answers::good_index(n) {
        return parts_of_none();
    }
    parts_of(n)
}

// The degree of the kind's polynomial, from phi; where phi is above n, which it never is, I has degree 0.
pub fn degree_from(kind: u64, n: u64, phi: u64) -> u64
    ensures { result ≡ cond (eqb kind 1) phi (n - phi) }
{
    if kind == 1 {
        return phi;
    }
    if n < phi { 0 } else { n - phi }
}

// The degree of the kind's polynomial for n, and 0 above 65,535 (and for n = 0, which has none).
pub fn degree_of(kind: u64, n: u64) -> u64
    ensures { result ≡ cond (ltb 65535 n) 0 (degree kind n) }
{
    if !answers::good_index(n) {
        return 0;
    }
    let a = parts_of(n);
    degree_from(kind, n, a.phi)
}

// D, half the degree for r, rounded down; `free` is phi(r).
pub fn half_degree(kind: u64, r: u64, free: u64) -> usize
    ensures { result ≡ cond (eqb kind 1) free (r - free) / 2 }
{
    (degree_from(kind, r, free) / 2) as usize
}
