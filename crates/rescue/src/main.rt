// `rescue` (docs/RULES.md, 'Rescue'): a damaged shelf on standard input to the rescued one on standard output, and then
// a line on standard error for each skipped stretch, its start and its length. What is kept and what is skipped is
// found by the proved library `rescuing`; here it is read and written. Where a read or a write fails, or there is more
// than the program holds, one line on standard error says so, and the run ends. No contract can say what a read gave or
// a write wrote. What is said is what is handed over: `write_kept` alone writes to standard output, and takes nothing
// but all that is kept of the shelf beside it; `write_line` takes nothing but the line of the stretch beside it.

#![tactic(auto)]

ghost use Rattle.std.specs.Prelude.{◌≡◌, ◌+◌, ◌*◌, ◌≤◌, length, take, MatchResult};
ghost use Rattle.io.specs.Counts.{IsPrefixLen};
ghost use Rattle.text.specs.Puts.{Puts};
ghost use Rattle.rescuing.specs.Rescue.{kept, listed};
ghost use Rattle.rescue.specs.Lines.{line_of, Stretch};

use std::io::{Result as IoResult, Write};
use streams::{ReadFailed, room};
use text::{put, put_item, put_number};

// So many bytes of input are held.
const MOST: usize = 2000000;

// Why nothing, or not all, is written.
#[derive(Drop)]
enum Failed {
    Reading { after: usize },
    TooLong,
    Writing { of: usize },
}

fn say_failed(rt: &HostRuntime, failed: Failed) {
    let nothing = b" bytes, nothing is written\n";
    match failed {
        Failed::Reading { after } => {
            streams::say(rt, b"rescue: reading failed after", after as u64, nothing)
        }
        Failed::TooLong => streams::say(rt, b"rescue: more than", MOST as u64, nothing),
        Failed::Writing { of } => streams::say(
            rt,
            b"rescue: writing failed, of",
            of as u64,
            b" bytes not all are written\n",
        ),
    }
}

// Reads to the end of the input, or until the buffer is full.
fn read_all(rt: &HostRuntime, shelf: &mut [u8]) -> Result<usize, ReadFailed>
    ensures { MatchResult result (λ n. IsPrefixLen n shelf.new) (λ e. IsPrefixLen e.after shelf.new) }
{
    // Stays a while: how far a turn comes is what the read gave.
    let mut at = 0;
    while at < shelf.len() {
        let n = streams::read_more(&mut rt.stdin(), shelf, at)?;
        if n == 0 {
            break;
        }
        at += n;
    }
    Ok(at)
}

// Hands a text to a write: all that is kept of a shelf, which is there for the contract alone.
fn write_kept(rt: &HostRuntime, shelf: &[u8], text: &[u8]) -> Result<(), Failed>
    requires { text.now ≡ kept shelf.now }
{
    match Write::write_all(&mut rt.stdout(), text) {
        Ok(()) => Ok(()),
        Err(_) => Err(Failed::Writing { of: text.len() }),
    }
}

// The line of a stretch, in a buffer.
fn put_stretch(line: &mut [u8], start: u64, size: u64) -> usize
    requires { 64 ≤ length line.old }
    ensures puts { Puts (line_of start size) 0 line.old line.new result }
    ensures upper_bound { result ≤ 64 }
{
    let p = put_number(line, 0, start);
    let p = put_item(line, p, size);
    put(line, p, b'\n')
}

// Hands a text to a write: the line of stretch i of a shelf, all of which is there for the contract alone.
fn write_line(
    rt: &HostRuntime,
    shelf: &[u8],
    i: usize,
    start: u64,
    size: u64,
    text: &[u8],
) -> IoResult<()>
    requires stretch { Stretch shelf.now i start size }
    requires text_value { text.now ≡ line_of start size }
{
    Write::write_all(&mut rt.stderr(), text)
}

// Says one stretch, in one write.
fn say_stretch(rt: &HostRuntime, shelf: &[u8], i: usize, start: u64, size: u64) -> IoResult<()>
    requires { Stretch shelf.now i start size }
{
    let mut line = [0u8; 64];
    let n = put_stretch(&mut line, start, size);
    write_line(rt, shelf, i, start, size, &line[..n])
}

// Says all stretches, in order, up to the first whose line can't be written.
fn say_stretches(rt: &HostRuntime, shelf: &[u8], list: &[u64], count: usize) -> IoResult<()>
    requires count_in_bounds { 2 * count ≤ length list.now }
    requires list_value { take (2 * count) list.now ≡ listed shelf.now }
{
    for i in 0..count {
        say_stretch(rt, shelf, i, list[2 * i], list[2 * i + 1])?;
    }
    Ok(())
}

// Rescues what was read. The rooms are so large for it that SHORT can't be met.
fn rescue_read(rt: &HostRuntime, shelf: &[u8]) -> Result<(), Failed>
    requires { length shelf.now ≤ 2000000 }
{
    let mut out: [u8; MOST] = room(0);
    let mut list: [u64; 363638] = room(0);
    let mut coeffs: [i64; 65536] = room(0);
    let rescued = rescuing::rescue(shelf, &mut out, &mut list, &mut coeffs);
    let kept = rescued.kept as usize;
    write_kept(rt, shelf, &out[..kept])?;
    // Where a line can't be written nothing more can be done.
    let _ = say_stretches(rt, shelf, &list, rescued.stretches as usize);
    Ok(())
}

// Reads a shelf and rescues it. For the bytes there is one more than a shelf may have, so that more input is seen.
fn rescue(rt: &HostRuntime) -> Result<(), Failed> {
    let mut shelf: [u8; MOST + 1] = room(0);
    let n = match read_all(rt, &mut shelf) {
        Ok(n) => n,
        Err(failed) => return Err(Failed::Reading {
            after: failed.after,
        }),
    };
    if n > MOST {
        return Err(Failed::TooLong);
    }
    rescue_read(rt, &shelf[..n])
}

fn main(rt: HostRuntime) {
    if let Err(failed) = rescue(&rt) {
        say_failed(&rt, failed);
    }
}
