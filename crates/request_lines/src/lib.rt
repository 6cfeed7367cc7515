// A line of the listing taken apart (docs/RULES.md, 'The listing').

#![tactic(auto)]

ghost use Rattle.std.specs.Prelude.{◌≡◌, ◌<◌, IfSome};
ghost use Rattle.request_lines.specs.Request.{IsKind, read_line};

use digits::{byte_at, number};

// What a good line asks for: a kind, an index and a height limit.
// Stays a number: the kind is the one that `polynomial` takes, and so the C interface.
#[derive(Drop)]
pub struct Request {
    pub kind: u64,
    pub n: u64,
    pub h: u64,
}

// The kind that a letter names.
fn kind_of(letter: u8) -> Option<u64>
    ensures { IsKind letter result }
{
    match letter {
        b'F' => Some(1),
        b'I' => Some(2),
        _ => None,
    }
}

// A letter, a space, n, a space, h, and nothing else; `None` where the line isn't good.
pub fn read_line(line: &[u8]) -> Option<Request>
    ensures { (result ≡ read_line line.now) × IfSome result (λ q. q.h < 1000000000) }
{
    let kind = kind_of(byte_at(line, 0))?;
    if byte_at(line, 1) != b' ' {
        return None;
    }
    let (a, n) = number(line, 2)?;
    if byte_at(line, 2 + a) != b' ' {
        return None;
    }
    let (b, h) = number(line, 3 + a)?;
    let whole = line.len() == 3 + a + b;
    whole.then_some(Request { kind, n, h })
}
