// An inner crate: each door of the library that is lent more than one buffer, asked for the program `trial`, and its
// answer told (second/README.md has the form). Nothing is promised but that each function is safe and ends: what is
// told is held to a stored output. The buffers that a request does not take are empty.

#![tactic(auto)]

use answers::Answer;
use std::fmt;
use std::fmt::Write;
use trial_output::{Bytes, Console, Entries};

// The names of the requests, as `trial_lines::name` reads them.
const WRITE: u64 = 24716933;

const READ: u64 = 594980;

const CASCADE: u64 = 3274802309;

const SECOND: u64 = 642891204;

const LOOKUP: u64 = 418885296;

const BROWSE: u64 = 86498917;

fn write(to: &mut Console, asked: [u64; 4], entries: &[i64], bytes: &mut [u8]) -> fmt::Result {
    let a = bonvedrick::bv_write(asked[0], asked[1], entries, bytes);
    let told = Bytes(bytes);
    writeln!(to, "{} {} {} {}{told}", a.code, a.degree, a.used, a.byte)
}

fn read(to: &mut Console, entries: &mut [i64], bytes: &[u8]) -> fmt::Result {
    let a = bonvedrick::bv_read(bytes, entries);
    let told = Entries(entries);
    writeln!(
        to,
        "{} {} {} {} {} {}{told}",
        a.code, a.degree, a.used, a.kind, a.n, a.byte
    )
}

// The first bytes are one's own shelf, as many as the third number says, and the others the house's.
fn lookup(to: &mut Console, asked: [u64; 4], bytes: &[u8]) -> fmt::Result {
    let (own, house) = bytes.split_at(trial_lines::room(asked[2], bytes.len()));
    let a = bonvedrick::bv_lookup(asked[0], asked[1], own, house);
    writeln!(
        to,
        "{} {} {} {} {} {}",
        a.code, a.byte, a.shelf, a.from, a.start, a.length
    )
}

fn browse(to: &mut Console, asked: [u64; 4], bytes: &[u8]) -> fmt::Result {
    let a = bonvedrick::bv_browse(bytes, asked[0]);
    writeln!(
        to,
        "{} {} {} {} {} {}",
        a.code, a.start, a.length, a.kind, a.n, a.degree
    )
}

// An answer, and what stands in two buffers.
fn told(to: &mut Console, a: Answer, entries: &[i64], scratch: &[i64]) -> fmt::Result {
    let entries = Entries(entries);
    let scratch = Entries(scratch);
    writeln!(
        to,
        "{} {} {} {} {} {}{entries}{scratch}",
        a.code, a.degree, a.additions, a.height, a.peak, a.gain
    )
}

// A request by its name; tells whether it is one of these.
pub fn ask(
    to: &mut Console,
    name: u64,
    asked: [u64; 4],
    indices: &[u64],
    entries: &mut [i64],
    scratch: &mut [i64],
    bytes: &mut [u8],
) -> Result<bool, fmt::Error> {
    match name {
        WRITE => write(to, asked, entries, bytes)?,
        READ => read(to, entries, bytes)?,
        CASCADE => {
            let a = bonvedrick::bv_cascade(indices, asked[0].cast_signed(), entries, scratch);
            told(to, a, entries, scratch)?;
        }
        SECOND => {
            let h = asked[2].cast_signed();
            let a = bonvedrick::bv_second(asked[0], asked[1], h, entries, scratch);
            told(to, a, entries, scratch)?;
        }
        LOOKUP => lookup(to, asked, bytes)?,
        BROWSE => browse(to, asked, bytes)?,
        _ => return Ok(false),
    }
    Ok(true)
}
