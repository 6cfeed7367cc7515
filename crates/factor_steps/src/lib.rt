// Inner: each `requires` is shown by the callers. A polynomial times F(n), n above 1, in place, modulo 2^64 and as far
// as the slice goes: by combs and accumulates, one for each set of n's primes.

#![tactic(auto)]

ghost use Rattle.std.specs.Prelude.{◌≡◌, ◌≢◌, true, length};
ghost use Rattle.definitions.specs.Polynomials.{F};
ghost use Rattle.definitions.specs.Requests.{good_index};
ghost use Rattle.cyclotomic.specs.Terms.{other};
ghost use Rattle.entry_steps.specs.Sorts.{sort_means};
ghost use Rattle.index.specs.Parts.{parts_of};
ghost use Rattle.factor_steps.specs.Factors.{terms_of};
ghost use Rattle.factor_steps.specs.Multiplied.{Multiplied, Due};

use entry_steps::Sort;
use index::Parts;
use wrapped_steps::wrapped_step;

fn turned(sort: Sort) -> Sort
    ensures { sort_means result ≡ other (sort_means sort) }
{
    match sort {
        Sort::Comb => Sort::Accumulate,
        Sort::Accumulate => Sort::Comb,
    }
}

// The terms of these primes, of size s: those of one prime less at p s, and at s those of the other sort.
fn take_terms(b: &mut [i64], primes: &[u64], s: u64, sort: Sort)
    requires { Due primes.now (length primes.now) s }
    ensures { Multiplied (terms_of primes.now (length primes.now) s (sort_means sort)) b.old b.new }
{
    let Some((p, fewer)) = primes.split_last() else {
        wrapped_step(sort, b, s as usize);
        return;
    };
    take_terms(b, fewer, s * *p, sort);
    take_terms(b, fewer, s, turned(sort));
}

// Where n is even, 2 is one prime more.
pub fn times_factor(b: &mut [i64], n: u64, parts: Parts)
    requires { (parts ≡ parts_of n) × (good_index n ≡ true) × (n ≢ 1) }
    ensures { Multiplied (F n) b.old b.new }
{
    let primes = &parts.primes[..parts.count];
    if n % 2 == 0 {
        take_terms(b, primes, 2 * parts.t, Sort::Comb);
        take_terms(b, primes, parts.t, Sort::Accumulate);
        return;
    }
    take_terms(b, primes, parts.t, Sort::Comb);
}
