// An inner crate: each door of the library that is about half records, asked for the program `trial`, and its answer
// told (second/README.md has the form). Nothing is promised but that each function is safe and ends: what is told is
// held to a stored output. The buffers that a request does not take are empty.

#![tactic(auto)]

use conversions::Converted;
use std::fmt;
use std::fmt::Write;
use trial_lines::room;
use trial_output::{Bytes, Console, Entries};

// The names of the requests, as `trial_lines::name` reads them.
const WRITE_HALF: u64 = 25917583000966;

const READ_HALF: u64 = 623882012038;

const TO_HALF: u64 = 687080838;

const TO_WHOLE: u64 = 22002548101;

fn write_half(to: &mut Console, asked: [u64; 4], entries: &[i64], bytes: &mut [u8]) -> fmt::Result {
    let a = bonvedrick::bv_write_half(asked[0], asked[1], entries, bytes);
    let told = Bytes(bytes);
    writeln!(to, "{} {} {} {}{told}", a.code, a.degree, a.used, a.byte)
}

fn read_half(to: &mut Console, entries: &mut [i64], bytes: &[u8]) -> fmt::Result {
    let a = bonvedrick::bv_read_half(bytes, entries);
    let told = Entries(entries);
    writeln!(
        to,
        "{} {} {} {} {} {}{told}",
        a.code, a.degree, a.used, a.kind, a.n, a.byte
    )
}

// What a conversion answered, and what it wrote.
fn converted(to: &mut Console, a: Converted, out: &[u8]) -> fmt::Result {
    let told = Bytes(out);
    writeln!(
        to,
        "{} {} {} {} {}{told}",
        a.code, a.degree, a.read, a.written, a.byte
    )
}

// A request by its name; tells whether it is one of these. A conversion goes into as much of the space as is
// lent, of which each byte holds 170.
pub fn ask(
    to: &mut Console,
    name: u64,
    asked: [u64; 4],
    entries: &mut [i64],
    bytes: &mut [u8],
    space: &mut [u8],
) -> Result<bool, fmt::Error> {
    let lent = room(asked[0], space.len());
    let out = &mut space[..lent];
    match name {
        WRITE_HALF => write_half(to, asked, entries, bytes)?,
        READ_HALF => read_half(to, entries, bytes)?,
        TO_HALF => {
            out.fill(170);
            let a = bonvedrick::bv_to_half(bytes, out);
            converted(to, a, out)?;
        }
        TO_WHOLE => {
            out.fill(170);
            let a = bonvedrick::bv_to_whole(bytes, out);
            converted(to, a, out)?;
        }
        _ => return Ok(false),
    }
    Ok(true)
}
