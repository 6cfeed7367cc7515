// Inner: nothing here is offered to callers; the `requires` is shown by `index`. The distinct odd primes of n, by trial
// division.

#![tactic(auto)]

ghost use Rattle.std.specs.Prelude.{◌*◌, ◌-◌, ◌<◌, ◌≤◌, ◌≡◌};
ghost use Rattle.numbers.specs.Primes.{Prime};
ghost use Rattle.sieve.specs.Sieving.{with_prime, odd_to, Without, Sifted};

// The distinct odd primes found so far, ascending, with zeros after them; how many; their product, and how many
// numbers up to it share no factor above 1 with it.
// Stays an array with a count: `index::Parts`, which takes it over, is copied, and the kit's ArrayVec is not Copy.
#[derive(Drop)]
pub struct OddPrimes {
    pub primes: [u64; 5],
    pub count: usize,
    pub product: u64,
    pub free: u64,
}

// The primes found, and what is left of n.
#[derive(Drop)]
pub struct Sieve {
    pub odd: OddPrimes,
    pub rest: u64,
}

impl OddPrimes {
    // one prime more
    fn with(self, p: u64) -> OddPrimes
        requires { (self.count < 5) × (self.product * p ≤ 65535) × (self.free * (p - 1) ≤ 65535) × (0 < p) }
        ensures { result ≡ with_prime self p }
    {
        let mut primes = self.primes;
        let count = self.count;
        primes[count] = p;
        OddPrimes {
            primes,
            count: count + 1,
            product: self.product * p,
            free: self.free * (p - 1),
        }
    }
}

// n with its factors p taken out
fn without(n: u64, p: u64) -> u64
    requires { (0 < n) × Prime p }
    ensures { Without n p result }
{
    let mut rest = n;
    // Stays a while: how often p divides is what the loop finds out.
    while rest % p == 0 {
        rest = rest / p;
    }
    rest
}

impl Sieve {
    // p looked at, when the primes below it are found
    fn sift(self, n: u64, p: u64) -> Sieve
        requires { (0 < n) × (n ≤ 65535) × (2 < p) × Sifted n (p - 1) self }
        ensures { Sifted n p result }
    {
        let rest = self.rest;
        if rest % p == 0 {
            let odd = self.odd;
            return Sieve {
                odd: odd.with(p),
                rest: without(rest, p),
            };
        }
        self
    }
}

// The odd primes of n: trial division by 3, 5, 7, .. (one that is no prime divides nothing that is left) as long as its
// square is at most what is left; what is left then is 1 or the last prime.
pub fn odd_primes(n: u64) -> OddPrimes
    requires { (0 < n) × (n ≤ 65535) }
    ensures { result ≡ odd_to n n }
{
    let mut s = Sieve {
        odd: OddPrimes {
            primes: [0; 5],
            count: 0,
            product: 1,
            free: 1,
        },
        rest: without(n, 2),
    };
    let mut p: u64 = 3;
    // Stays a while: each prime found lowers the end, so it is no range.
    while p * p <= s.rest {
        s = s.sift(n, p);
        p += 2;
    }
    let odd = s.odd;
    let rest = s.rest;
    if 1 < rest {
        return odd.with(rest);
    }
    odd
}
