// An inner crate: each door of the library that is lent one buffer, asked for the program `trial`, and its answer told
// (second/README.md has the form). Nothing is promised but that each function is safe and ends: what is told is held to
// a stored output. A request that comes is one function more here, or in trial_pair_doors.

#![tactic(auto)]

use std::fmt;
use std::fmt::Write;
use steps::Stepped;
use trial_output::{Console, Entries};

// The names of the requests, as `trial_lines::name` reads them.
const POLYNOMIAL: u64 = 579882274169900;

const PARTIAL: u64 = 17232962604;

const COMB: u64 = 114082;

const ACCUMULATE: u64 = 38608993388165;

fn polynomial(to: &mut Console, asked: [u64; 4], entries: &mut [i64]) -> fmt::Result {
    let [kind, n, h, w] = asked;
    let a = bonvedrick::bv_polynomial(kind, n, h.cast_signed(), w.cast_signed(), entries);
    let told = Entries(entries);
    writeln!(
        to,
        "{} {} {} {} {} {}{told}",
        a.code, a.degree, a.additions, a.height, a.peak, a.gain
    )
}

fn partial(to: &mut Console, asked: [u64; 4], entries: &mut [i64]) -> fmt::Result {
    let [kind, n, j, w] = asked;
    let a = bonvedrick::bv_partial(kind, n, j, w.cast_signed(), entries);
    let told = Entries(entries);
    writeln!(
        to,
        "{} {} {} {}{told}",
        a.code, a.degree, a.additions, a.due
    )
}

// What a step answered, and what it left.
fn stepped(to: &mut Console, a: Stepped, entries: &[i64]) -> fmt::Result {
    let told = Entries(entries);
    writeln!(to, "{} {}{told}", a.code, a.count)
}

// A request by its name; tells whether it is one of these.
pub fn ask(
    to: &mut Console,
    name: u64,
    asked: [u64; 4],
    entries: &mut [i64],
) -> Result<bool, fmt::Error> {
    let [size, w, _, _] = asked;
    match name {
        POLYNOMIAL => polynomial(to, asked, entries)?,
        PARTIAL => partial(to, asked, entries)?,
        COMB => {
            let a = bonvedrick::bv_comb(size, w.cast_signed(), entries);
            stepped(to, a, entries)?;
        }
        ACCUMULATE => {
            let a = bonvedrick::bv_accumulate(size, w.cast_signed(), entries);
            stepped(to, a, entries)?;
        }
        _ => return Ok(false),
    }
    Ok(true)
}
