// An inner crate: the standard streams of our own programs. A call that a signal interrupts is tried again, and
// what failed can be said in one line. No contract can say what is read or written; each function is safe and ends.

#![tactic(auto)]

ghost use Rattle.std.specs.Prelude.{◌≡◌, [], ◌∷◌, ◌++◌, ◌+◌, ◌≤◌, length, take, pos, IfOk, MatchResult};
ghost use Rattle.io.specs.Counts.{IsPrefixLen};
ghost use Rattle.text.specs.Text.{spaced};
ghost use Rattle.text.specs.Puts.{Puts};

use std::io::{ErrorKind, Read, Result, Write};
use text::{put_item, put_text};

// A read that failed, after so many bytes that the ones before it gave.
#[derive(Drop)]
pub struct ReadFailed {
    pub after: usize,
}

// One read: how many bytes it put at the start of the chunk, none at the end of the input. A proved loop has to end, so
// it counts its turns, up to a number that no run comes to.
pub fn read_some<R: Read>(from: &mut R, chunk: &mut [u8]) -> Result<usize>
    ensures { IfOk result (λ n. IsPrefixLen n chunk.new) }
{
    for _ in 0..u64::MAX {
        match from.read(chunk) {
            Err(e) if e.kind() == ErrorKind::Interrupted => {}
            done => return done,
        }
    }
    Err(ErrorKind::Interrupted.into())
}

// One read, to where the ones before have come. What they gave stays.
pub fn read_more<R: Read>(
    from: &mut R,
    buffer: &mut [u8],
    at: usize,
) -> std::result::Result<usize, ReadFailed>
    requires { at ≤ length buffer.old }
    ensures count_in_bounds { MatchResult result (λ n. at + n ≤ length buffer.new) (λ e. e.after ≡ at) }
    ensures buffer_unchanged { take at buffer.new ≡ take at buffer.old }
{
    read_some(from, &mut buffer[at..]).map_err(|_| ReadFailed { after: at })
}

// A buffer. Only the length is known, so that no proof goes through it.
pub fn room<T: Copy, const N: usize>(zero: T) -> [T; N]
    ensures { N ≡ length result }
{
    [zero; N]
}

// A text, a space and a number, and a text.
fn put_line(out: &mut [u8], before: &[u8], count: u64, after: &[u8]) -> usize
    requires { length before.now + 21 + length after.now ≤ length out.old }
    ensures puts { Puts (before.now ++ (spaced (pos count ∷ []) ++ after.now)) 0 out.old
        out.new result }
    ensures upper_bound { result ≤ length out.old }
{
    let p = put_text(out, 0, before);
    let p = put_item(out, p, count);
    put_text(out, p, after)
}

// The same to standard error, in one write. Where that fails too, nothing more can be done.
pub fn say(rt: &HostRuntime, before: &[u8], count: u64, after: &[u8])
    requires { length before.now + 21 + length after.now ≤ 128 }
{
    let mut line = [0u8; 128];
    let n = put_line(&mut line, before, count, after);
    let _ = Write::write_all(&mut rt.stderr(), &line[..n]);
}
