// Inner: the caller `second` shows each `requires`. The second engine: the lower half of F(r) or I(r), each kind asking
// for the other, and for itself, at one prime fewer. No comb and no accumulate is taken.

#![tactic(auto)]

mod joining;
mod kind;

ghost use Rattle.std.specs.Prelude.{◌≡◌, ◌-◌, ◌<◌, true, length, get_or};
ghost use Rattle.definitions.specs.Requests.{known_kind};
ghost use Rattle.second_engine.specs.Kinds.{kind_means};
ghost use Rattle.second_engine.specs.Halves.{Asked, Half};

use joining::{fill, join};
use kind::Kind;

// p, the largest of the primes: they ascend.
fn largest(primes: &[u64]) -> u64
    requires { 0 < length primes.now }
    ensures { result ≡ get_or primes.now (length primes.now - 1) 0 }
{
    primes[primes.len() - 1]
}

// F(r) or I(r), of these primes, in a: with p the last of them and m = r / p, from both polynomials of m, which are made
// in b while a is the scratch.
fn half(a: &mut [i64], b: &mut [i64], kind: Kind, primes: &[u64], r: u64, free: u64)
    requires { Asked (kind_means kind) primes.now (length primes.now) r free a.old b.old }
    ensures { Half (kind_means kind) r a.new }
{
    let Some((_, fewer)) = primes.split_last() else {
        a[0] = match kind {
            Kind::First => -1,
            Kind::Inverse => 1,
        };
        return;
    };
    let p = largest(primes);
    let m = r / p;
    let below = free / (p - 1);
    let other = kind.other();
    let whole = other.degree(m, below) as usize + 1;
    half(b, a, other, fewer, m, below);
    fill(b, 0, whole, other, m);
    half(&mut b[whole..], a, kind, fewer, m, below);
    join(a, b, kind, m, below, p);
}

// The lower half of the polynomial of r, of either kind.
// Stays an array with a count: so `index::Parts` has them, from which the caller takes them.
pub fn lower_half(
    a: &mut [i64],
    b: &mut [i64],
    kind: u64,
    primes: [u64; 5],
    k: usize,
    r: u64,
    free: u64,
)
    requires { Asked kind primes k r free a.old b.old × (known_kind kind ≡ true) }
    ensures { Half kind r a.new }
{
    half(a, b, Kind::of(kind), &primes[..k], r, free);
}
