// `list` (docs/RULES.md, 'The listing'): lines of standard input to answers on standard output. What is printed is made
// by the proved library `listing`; here its pieces are read and written. A run keeps 40 bytes of a line, so memory does
// not grow with the input. Where a read or a write fails, one line on standard error says so, and the run ends.
// No contract can say what a read gave or a write wrote. What is said is what is handed over: `write_made` alone writes
// to standard output, and takes nothing but all that the bytes beside it print; and the line that is open goes on over
// every byte that a read gave.

#![tactic(auto)]

ghost use Rattle.std.specs.Prelude.{◌≡◌, ◌<◌, ◌≤◌, length, IfOk, IfErr};
ghost use Rattle.io.specs.Counts.{IsPrefixLen};
ghost use Rattle.listing.specs.Reply.{MOST};
ghost use Rattle.listing.specs.Stream.{after};
ghost use Rattle.list.specs.Handed.{handed};
ghost use Rattle.list.specs.Went.{Took, TookAll, Ended, Listed};

use listing::Line;
use std::io::{Result as IoResult, Write};
use std::ops::ControlFlow;
use streams::room;

// What failed, and the line that was open by then.
#[derive(Drop)]
enum Failed {
    Reading(Line),
    Writing(Line),
}

// How far a run over a piece went: the line that is open, and how many bytes of the piece were taken.
#[derive(Drop)]
struct Going {
    line: Line,
    taken: usize,
}

// Which of the two failed, and how many input lines were taken by then: each whose newline a run has passed, and a last
// line without one once the input has ended and it is listed. They count whether or not their answers were written.
fn say_failed(rt: &HostRuntime, failed: Failed) {
    let (what, line) = match failed {
        Failed::Reading(line) => (b"list: reading failed after", line),
        Failed::Writing(line) => (b"list: writing failed after", line),
    };
    streams::say(rt, what, line.number.wrapping_sub(1), b" input lines\n");
}

// Hands a text to a write. It is all that the bytes `taken` print after `line` (before the first byte, the heading),
// and `next` is the line that they leave open: `line` and `taken` are there for the contract alone, which no caller
// meets that hands over less, or anything else.
fn write_made(
    rt: &HostRuntime,
    line: Line,
    taken: &[u8],
    text: &[u8],
    next: Line,
) -> Result<(), Failed>
    requires text_value { text.now ≡ handed line taken.now }
    requires next_value { next ≡ after line taken.now }
    ensures { IfErr result (λ e. e ≡ Failed.Writing next) }
{
    match Write::write_all(&mut rt.stdout(), text) {
        Ok(()) => Ok(()),
        Err(_) => Err(Failed::Writing(next)),
    }
}

// One run over a piece, and what it made.
fn list_some(rt: &HostRuntime, line: Line, piece: &[u8], out: &mut [u8]) -> Result<Going, Failed>
    requires in_bounds { MOST ≤ length out.old }
    requires piece_nonzero { 0 < length piece.now }
    ensures { Took line piece.now result }
{
    let p = listing::run(line, piece, out);
    let next = p.line;
    let taken = p.taken;
    let made = p.made;
    write_made(rt, line, &piece[..taken], &out[..made], next)?;
    Ok(Going { line: next, taken })
}

// Lists a piece of the input, all of it, as much at a time as there is room for, and tells the line that is open then.
fn list_piece(
    rt: &HostRuntime,
    mut line: Line,
    piece: &[u8],
    out: &mut [u8],
) -> Result<Line, Failed>
    requires { MOST ≤ length out.old }
    ensures { TookAll line piece.now result }
{
    let mut rest = piece;
    // Stays a while: how far a turn comes is what a run took.
    while !rest.is_empty() {
        let going = list_some(rt, line, rest, out)?;
        line = going.line;
        rest = &rest[going.taken..];
    }
    Ok(line)
}

// Where the input has ended: a last line without a newline is listed as if it had one.
fn list_end(rt: &HostRuntime, line: Line, out: &mut [u8]) -> Result<Line, Failed>
    requires { MOST ≤ length out.old }
    ensures { Ended line result }
{
    if line.length == 0 {
        return Ok(line);
    }
    list_piece(rt, line, b"\n", out)
}

// Lists what a read gave, all of it, and tells the line that is open then; where it gave nothing, the end.
fn list_read(
    rt: &HostRuntime,
    line: Line,
    got: IoResult<usize>,
    chunk: &[u8],
    out: &mut [u8],
) -> Result<ControlFlow<Line, Line>, Failed>
    requires in_bounds { MOST ≤ length out.old }
    requires prefix_len { IfOk got (λ n. IsPrefixLen n chunk.now) }
    ensures { Listed line got chunk.now result }
{
    let Ok(n) = got else {
        return Err(Failed::Reading(line));
    };
    if n == 0 {
        let last = list_end(rt, line, out)?;
        return Ok(ControlFlow::Break(last));
    }
    let next = list_piece(rt, line, &chunk[..n], out)?;
    Ok(ControlFlow::Continue(next))
}

// Reads and lists to the end of the input. A proved loop has to end, so it counts its turns, up to a number that no run
// comes to. What the reads gave has no name in a contract: that each turn begins with the line that the one before left
// open, and the first with a new one, is read here and run.
fn list_all(rt: &HostRuntime, chunk: &mut [u8], out: &mut [u8]) -> Result<(), Failed>
    requires { MOST ≤ length out.old }
{
    let mut line = listing::start();
    for _ in 0..u64::MAX {
        let got = streams::read_some(&mut rt.stdin(), chunk);
        match list_read(rt, line, got, chunk, out)? {
            ControlFlow::Continue(next) => line = next,
            ControlFlow::Break(_) => break,
        }
    }
    Ok(())
}

// The heading, and then the input. The output goes out in pieces of up to 128 KiB.
fn list(rt: &HostRuntime) -> Result<(), Failed> {
    let mut chunk = io::large_buffer();
    let mut out: [u8; 131072] = room(0);
    let n = listing::heading(&mut out);
    let line = listing::start();
    write_made(rt, line, b"", &out[..n], line)?;
    list_all(rt, &mut chunk, &mut out)
}

fn main(rt: HostRuntime) {
    if let Err(failed) = list(&rt) {
        say_failed(&rt, failed);
    }
}
