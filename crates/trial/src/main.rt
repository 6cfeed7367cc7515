// The trial: requests on standard input, a line each, asked of the library's doors and answered by a line each on
// standard output (second/README.md has the form of both). What it prints is held to what second/ made by another
// road, so nothing is promised here but that each function is safe and ends. A line that is not a good request is
// answered by a question mark. All of the input is read before the first answer, 4 MB at most: of more, the rest has
// no answers.

#![tactic(auto)]

use std::fmt;
use std::fmt::Write;
use streams::room;
use trial_output::Console;

// Standard input.
const STDIN: i32 = 0;

// What a request can be lent: entries, those of a second buffer, bytes, bytes to write to, and a list.
#[derive(Drop)]
struct Rooms<'a> {
    entries: &'a mut [i64],
    scratch: &'a mut [i64],
    bytes: &'a mut [u8],
    space: &'a mut [u8],
    list: &'a mut [u64],
}

// A whole line. Its words are a name and numbers; then, each where there are some, indices, entries, entries of a
// second buffer, and bytes.
fn answer(to: &mut Console, line: &[u8], rooms: &mut Rooms<'_>) -> fmt::Result {
    let (name, rest) = trial_lines::name(line);
    let (asked, rest) = trial_lines::numbers(rest);
    let (indices, rest) = trial_lines::indices(rest);
    let (lent, rest) = trial_lines::entries(rest, rooms.entries);
    let (more, rest) = trial_lines::entries(rest, rooms.scratch);
    let (held, rest) = trial_lines::bytes(rest, rooms.bytes);
    let entries = &mut rooms.entries[..lent];
    let scratch = &mut rooms.scratch[..more];
    let bytes = &mut rooms.bytes[..held];
    let space = &mut *rooms.space;
    let list = &mut *rooms.list;
    let indices = &indices.values[..indices.count];
    let known = rest.is_empty()
        && (trial_pair_doors::ask(to, name, asked, indices, entries, scratch, bytes)?
            || trial_half_doors::ask(to, name, asked, entries, bytes, space)?
            || trial_rescue_doors::ask(to, name, asked, entries, bytes, space, list)?
            || trial_response_doors::ask(to, name, asked, entries)?
            || trial_census_doors::ask(to, name, asked, entries, list)?
            || trial_doors::ask(to, name, asked, entries)?);
    if !known {
        writeln!(to, "?")?;
    }
    Ok(())
}

// Line after line. A write that fails is passed over: what was printed is held to a stored output.
fn answer_all(input: &[u8], rooms: &mut Rooms<'_>) {
    let mut to = Console::new();
    for line in input.split_inclusive(|b| *b == b'\n') {
        let _ = answer(&mut to, line.strip_suffix(b"\n").unwrap_or(line), rooms);
    }
}

fn main() {
    let mut input = room::<u8, 4194304>(0);
    let mut entries = [0i64; 65536];
    let mut scratch = [0i64; 131088];
    let mut bytes = [0u8; 65536];
    let mut space = [0u8; 65536];
    let mut list = [0u64; 65536];
    let n = io::read_full(STDIN, &mut input);
    let mut rooms = Rooms {
        entries: &mut entries,
        scratch: &mut scratch,
        bytes: &mut bytes,
        space: &mut space,
        list: &mut list,
    };
    answer_all(&input[..n], &mut rooms);
}
