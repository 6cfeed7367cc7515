// The line of the listing that is being read, and the listing's first line (docs/RULES.md, 'The listing'). `push` and
// `next` are inner: only `listing` uses them, and nothing is asked; it hands out the rest.

#![tactic(auto)]

ghost use Rattle.std.specs.Prelude.{◌≡◌, ◌≤◌, [], length, if◌then◌else◌, nat_lt};
ghost use Rattle.text.specs.Puts.{Puts};
ghost use Rattle.line_so_far.specs.Heading.{heading as theHeading};
ghost use Rattle.line_so_far.specs.OpenLine.{start_line, pushed, next_line};

use text::put_text;

// So many bytes of a line are kept: a longer one is not good.
const KEPT: usize = 40;

const HEADING: [u8; 12] = *b"polynomials\n";

// The line that is being read: its first 40 bytes, its length (41 for all longer ones) and its number among the input
// lines.
// Stays an array with a length beside it: the length says 41 of a line that is longer than what is kept, which the
// length of an `ArrayVec` can't, and a flag beside that would be no plainer.
#[derive(Clone, Copy)]
pub struct Line {
    pub bytes: [u8; KEPT],
    pub length: usize,
    pub number: u64,
}

impl Line {
    // One byte more, that is no newline.
    pub fn push(&mut self, b: u8)
        ensures { self.new ≡ pushed self.old b }
    {
        let n = self.length;
        if n < KEPT {
            self.bytes[n] = b;
            self.length = n + 1;
        } else {
            self.length = KEPT + 1;
        }
    }

    // After a newline.
    pub fn next(&mut self)
        ensures { self.new ≡ next_line self.old }
    {
        self.length = 0;
        self.number = self.number.wrapping_add(1);
    }
}

// `polynomials` and a newline, where there is room for it.
pub fn heading(out: &mut [u8]) -> usize
    ensures puts { Puts (if nat_lt (length out.old) 12 then [] else theHeading) 0 out.old out.new result }
    ensures upper_bound { result ≤ length out.old }
{
    if out.len() < 12 {
        return 0;
    }
    put_text(out, 0, &HEADING)
}

// Before the first byte of the input.
pub fn start() -> Line
    ensures { result ≡ start_line }
{
    Line {
        bytes: [0; KEPT],
        length: 0,
        number: 1,
    }
}
