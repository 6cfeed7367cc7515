// The accumulate, from the bottom up, so that the entry d before is the new one.

ghost use Rattle.std.specs.Prelude.{◌≡◌, List, ◌≤◌, ◌<◌, length, ℤ};
ghost use Rattle.definitions.specs.Steps.{accumulate};
ghost use Rattle.wrapped_combs.specs.Wrapped.{wrapped_list};
ghost use Rattle.wrapped_steps.specs.Upward.{UpTo, Upward};

use crate::rows::known_rows;
use entry_steps::Sort;
use wrapped_combs::{step_four, step_one};

// Takes places by fours while there are four, none of which needs another; answers the place up to which it took.
fn fours_up(a: &mut [i64], d: usize) -> usize
    requires { (4 ≤ d) × (d ≤ length a.old) }
    ensures { UpTo d a.old a.new result }
{
    let mut k = d;
    // Stays a while: it goes up by fours, and answers where they end.
    while 4 <= a.len() - k {
        step_four(Sort::Accumulate, a, k, d);
        k += 4;
    }
    k
}

// Takes the places from `from` on, one by one.
fn ones_up(a: &mut [i64], d: usize, from: usize)
    requires { (1 ≤ d) × Upward d a.old from }
    ensures { (l : List ℤ) → UpTo d l a.old from → a.new ≡ wrapped_list accumulate d l }
{
    for i in from..a.len() {
        step_one(Sort::Accumulate, a, i, d);
    }
}

// Takes most places, of a small size by rows; answers the place up to which it took. Each size up to 15 has its own
// loop, with its sums in registers.
fn most_up(a: &mut [i64], d: usize) -> usize
    requires { (1 ≤ d) × (d ≤ length a.old) }
    ensures { UpTo d a.old a.new result }
{
    match d {
        15 => known_rows::<15>(a),
        14 => known_rows::<14>(a),
        13 => known_rows::<13>(a),
        12 => known_rows::<12>(a),
        11 => known_rows::<11>(a),
        10 => known_rows::<10>(a),
        9 => known_rows::<9>(a),
        8 => known_rows::<8>(a),
        7 => known_rows::<7>(a),
        6 => known_rows::<6>(a),
        5 => known_rows::<5>(a),
        4 => known_rows::<4>(a),
        3 => known_rows::<3>(a),
        2 => known_rows::<2>(a),
        1 => known_rows::<1>(a),
        _ => fours_up(a, d),
    }
}

pub(crate) fn accumulate(a: &mut [i64], d: usize)
    requires { (1 ≤ d) × (d ≤ length a.old) }
    ensures { a.new ≡ wrapped_list accumulate d a.old }
{
    let t = most_up(a, d);
    ones_up(a, d, t);
}
