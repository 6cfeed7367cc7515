// The listing of an input that comes in pieces, made in pieces: what is kept between them is the line that is being
// read.

ghost use Rattle.std.specs.Prelude.{◌≡◌, ◌+◌, ◌≤◌, length};
ghost use Rattle.text.specs.Puts.{Puts};
ghost use Rattle.listing.specs.Reply.{LENT};
ghost use Rattle.listing.specs.Reply.{MOST as Most};
ghost use Rattle.listing.specs.Stream.{closing};
ghost use Rattle.listing.specs.Ran.{Ran};

use crate::reply::put_reply;
use crate::{MOST, Progress};
use answer_lines::put_wrong;
use line_so_far::Line;

// What a newline prints.
fn put_closing(out: &mut [u8], at: usize, line: &Line, entries: &mut [i64]) -> usize
    requires { (length entries.old ≡ LENT) × (at + Most ≤ length out.old) }
    ensures puts { Puts (closing line.now) at out.old out.new result }
    ensures upper_bound { result ≤ at + Most }
{
    let Some(text) = line.bytes.get(..line.length) else {
        return put_wrong(out, at, line.number);
    };
    put_reply(out, at, text, line.number, entries)
}

// `run`, with the entries for the polynomials lent.
fn run_with(mut line: Line, piece: &[u8], out: &mut [u8], entries: &mut [i64]) -> Progress
    requires { length entries.old ≡ LENT }
    ensures { Ran line piece.now out.old out.new result }
{
    let mut made = 0;
    for (i, &b) in piece.iter().enumerate() {
        if b == b'\n' {
            if out.len() - made < MOST {
                return Progress {
                    line,
                    taken: i,
                    made,
                };
            }
            made = put_closing(out, made, &line, entries);
            line.next();
        } else {
            line.push(b);
        }
    }
    Progress {
        line,
        taken: piece.len(),
        made,
    }
}

// Goes through a piece of input, up to its end or to a newline for whose line there may be no room, and writes from the
// start of `out`.
pub fn run(line: Line, piece: &[u8], out: &mut [u8]) -> Progress
    ensures { Ran line piece.now out.old out.new result }
{
    let mut entries = [0i64; 4096];
    run_with(line, piece, out, &mut entries)
}
