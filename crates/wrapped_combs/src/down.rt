// The comb, from the top down, so that the entry d before is still the old one.

ghost use Rattle.std.specs.Prelude.{◌≡◌, List, ◌≤◌, length, ℤ};
ghost use Rattle.definitions.specs.Steps.{comb};
ghost use Rattle.wrapped_combs.specs.Wrapped.{wrapped_list, DownTo, Downward};

use crate::value::{step_four, step_one};
use entry_steps::Sort;

// Takes places by fours while there are four; answers the place down to which it took.
fn fours_down(a: &mut [i64], d: usize) -> usize
    requires { d ≤ length a.old }
    ensures { DownTo d a.old a.new result }
{
    let mut t = a.len();
    // Stays a while: it goes down by fours, and answers where they end.
    while 4 <= t - d {
        let k = t - 4;
        step_four(Sort::Comb, a, k, d);
        t = k;
    }
    t
}

// Takes the places below `from` that are left, one by one.
fn ones_down(a: &mut [i64], d: usize, from: usize)
    requires { Downward d a.old from }
    ensures { (l : List ℤ) → DownTo d l a.old from → a.new ≡ wrapped_list comb d l }
{
    for t in (d..from).rev() {
        step_one(Sort::Comb, a, t, d);
    }
}

pub fn comb(a: &mut [i64], d: usize)
    requires { d ≤ length a.old }
    ensures { a.new ≡ wrapped_list comb d a.old }
{
    let t = fours_down(a, d);
    ones_down(a, d, t);
}
