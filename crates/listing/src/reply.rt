// The line that answers a line. The caller sees to the room: MOST bytes are enough where 4,096 entries are lent.

ghost use Rattle.std.specs.Prelude.{◌≡◌, [], ◌+◌, ◌≤◌, length, cond, ltb};
ghost use Rattle.text.specs.Puts.{Puts};
ghost use Rattle.listing.specs.Reply.{LENT, MOST as Most, reply};

use crate::MOST;
use answer_lines::{put_head, put_tail, put_wrong};
use request_lines::read_line;

// The listing has no working limit.
const LARGEST: i64 = i64::MAX;

pub(crate) fn put_reply(
    out: &mut [u8],
    at: usize,
    line: &[u8],
    number: u64,
    entries: &mut [i64],
) -> usize
    requires { (length entries.old ≡ LENT) × (at + Most ≤ length out.old) }
    ensures puts { Puts (reply number line.now) at out.old out.new result }
    ensures upper_bound { result ≤ at + Most }
{
    let Some(q) = read_line(line) else {
        return put_wrong(out, at, number);
    };
    let a = polynomial::polynomial(q.kind, q.n, q.h as i64, LARGEST, entries);
    let p = put_head(out, at, q.kind, q.n, a);
    put_tail(out, p, a, entries)
}

// The reply to one line at the start of `out`, where there is room for any; no reply is empty, so 0 says that there was
// none.
pub fn answer_line(line: &[u8], number: u64, out: &mut [u8]) -> usize
    ensures { Puts (cond (ltb (length out.old) Most) [] (reply number line.now)) 0 out.old
        out.new result }
{
    if out.len() < MOST {
        return 0;
    }
    let mut entries = [0i64; 4096];
    put_reply(out, 0, line, number, &mut entries)
}
