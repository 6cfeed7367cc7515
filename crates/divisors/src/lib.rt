// Inner: each `requires` is shown by `kept_half`. The walk over the divisors of r below r, one after the other in
// ascending order. A divisor is named by the set of its primes, one bit for each.

#![tactic(auto)]

ghost use Rattle.std.specs.Prelude.{◌*◌, ◌-◌, ◌^◌, ◌<◌, ◌≤◌, ◌≡◌, cond, eqb, length};
ghost use Rattle.std.specs.Iterator.{at_most};
ghost use Rattle.definitions.specs.Numbers.{row_to};
ghost use Rattle.divisors.specs.Masks.{bit, mask_to};
ghost use Rattle.divisors.specs.Least.{Row, LeastTo, or_named};
ghost use Rattle.divisors.specs.Walks.{over_parts, Stands, next_of};

use index::Parts;

// A divisor: the set of its primes, and its size.
#[derive(Drop)]
pub struct NamedDivisor {
    pub mask: u32,
    pub size: u64,
}

// The walk: the primes of r in five places, how many, r, the divisor taken last (0 before the first) and how many are
// still due.
#[derive(Clone, Copy)]
pub struct Walk {
    pub primes: [u64; 5],
    pub count: usize,
    pub r: u64,
    pub last: u64,
    pub due: u64,
}

// A divisor d, and whether mu(r/d) is +1.
#[derive(Clone, Copy)]
pub struct Divisor {
    pub size: u64,
    pub plus: bool,
}

// p where bit i of the mask is a one, else 1
fn chosen(mask: u32, i: usize, p: u64) -> u64
    requires { i < 32 }
    ensures { result ≡ cond (eqb (bit mask i) 1) p 1 }
{
    if (mask >> i) & 1 == 1 { p } else { 1 }
}

// the mask of all: count ones
fn full(count: usize) -> u32
    requires { count ≤ 5 }
    ensures { result ≡ 2 ^ count - 1 }
{
    (1u32 << count) - 1
}

// the product of the primes of a mask
fn product(primes: &[u64], mask: u32) -> u64
    requires { Row primes.now (length primes.now) }
    ensures { result ≡ mask_to primes.now mask (length primes.now) }
{
    let mut size: u64 = 1;
    for (i, p) in primes.iter().enumerate() {
        size *= chosen(mask, i, *p);
    }
    size
}

impl NamedDivisor {
    // the smaller of two, if it is above `after`
    fn or(self, mask: u32, size: u64, after: u64) -> NamedDivisor
        ensures { result ≡ or_named self mask size after }
    {
        if after < size && size < self.size {
            NamedDivisor { mask, size }
        } else {
            self
        }
    }
}

// the least divisor above `after`, which is below r
fn least(primes: &[u64], r: u64, after: u64) -> NamedDivisor
    requires { Row primes.now (length primes.now) × (r ≡ row_to primes.now (length primes.now)) × (after < r) }
    ensures { LeastTo primes.now (length primes.now) after (2 ^ length primes.now) result }
{
    let all = full(primes.len());
    let mut best = NamedDivisor { mask: all, size: r };
    for mask in 0..all {
        best = best.or(mask, product(primes, mask), after);
    }
    best
}

impl Walk {
    // the walk at its start
    pub fn over(parts: Parts) -> Walk
        requires { parts.count ≤ 5 }
        ensures { result ≡ over_parts parts }
    {
        let primes = parts.primes;
        let count = parts.count;
        Walk {
            primes,
            count,
            r: parts.r,
            last: 0,
            due: full(count) as u64,
        }
    }

    // The next divisor, and the walk after it: the walk is taken, and handed back by value.
    pub fn take_next(self) -> (Option<Divisor>, Walk)
        requires { Stands self }
        ensures { result ≡ next_of self }
    {
        if self.due == 0 {
            return (None, self);
        }
        let d = least(&self.primes[..self.count], self.r, self.last);
        let others = (full(self.count) ^ d.mask).count_ones();
        let divisor = Divisor {
            size: d.size,
            plus: others % 2 == 0,
        };
        let after = Walk {
            last: d.size,
            due: self.due - 1,
            ..self
        };
        (Some(divisor), after)
    }
}

// The divisors that are still due.
impl Iterator for Walk {
    type Item = Divisor;

    ghost can_next = { Stands };

    ghost next_gives = { λ walk divisor after. (divisor, after) ≡ next_of walk };

    ghost remaining = { λ walk. at_most walk.due };

    fn next(&mut self) -> Option<Divisor> {
        let (divisor, after) = self.take_next();
        *self = after;
        divisor
    }
}
