// An inner crate: the door of the library that takes a census of heights, asked for the program `trial`, and its answer
// told (second/README.md has the form). Nothing is promised but that each function is safe and ends: what is told is
// held to a stored output.

#![tactic(auto)]

use std::fmt;
use std::fmt::Write;
use trial_lines::room;
use trial_output::{Console, Entries};

// The name of the request, as `trial_lines::name` reads it.
const CENSUS: u64 = 106385075;

// A request by its name; tells whether it is this one. A census goes into as many of the rows' numbers as are lent.
pub fn ask(
    to: &mut Console,
    name: u64,
    asked: [u64; 4],
    work: &mut [i64],
    rows: &mut [u64],
) -> Result<bool, fmt::Error> {
    if name != CENSUS {
        return Ok(false);
    }
    let slots = room(asked[2], rows.len());
    let rows = &mut rows[..slots];
    rows.fill(170);
    let a = bonvedrick::bv_census(asked[0], asked[1], rows, work);
    let rows = Entries(rows);
    let work = Entries(work);
    writeln!(to, "{} {} {}{rows}{work}", a.code, a.rows, a.additions)?;
    Ok(true)
}
