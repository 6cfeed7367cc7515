// An inner crate: the door of the library that rescues a damaged shelf, asked for the program `trial`, and its answer
// told (second/README.md has the form). Nothing is promised but that each function is safe and ends: what is told is
// held to a stored output.

#![tactic(auto)]

use std::fmt;
use std::fmt::Write;
use trial_lines::room;
use trial_output::{Bytes, Console, Entries};

// The name of the request, as `trial_lines::name` reads it.
const RESCUE: u64 = 609848997;

// A request by its name; tells whether it is this one. A rescue goes into as much of the space and of the list as is
// lent.
pub fn ask(
    to: &mut Console,
    name: u64,
    asked: [u64; 4],
    entries: &mut [i64],
    bytes: &[u8],
    space: &mut [u8],
    list: &mut [u64],
) -> Result<bool, fmt::Error> {
    if name != RESCUE {
        return Ok(false);
    }
    let lent = room(asked[0], space.len());
    let slots = room(asked[1], list.len());
    let out = &mut space[..lent];
    let list = &mut list[..slots];
    out.fill(170);
    list.fill(170);
    let a = bonvedrick::bv_rescue(bytes, out, list, entries);
    let out = Bytes(out);
    let list = Entries(list);
    let entries = Entries(entries);
    writeln!(
        to,
        "{} {} {}{out}{list}{entries}",
        a.code, a.kept, a.stretches
    )?;
    Ok(true)
}
