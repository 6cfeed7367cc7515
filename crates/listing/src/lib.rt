// The listing (docs/RULES.md, 'The listing'): bytes of lines in, bytes of answers out. `request_lines` and `reply`
// answer one line, `line_so_far` holds the one that is being read, and `stream` goes through an input that comes in
// pieces.

#![tactic(auto)]

mod reply;
mod stream;

pub use line_so_far::{Line, heading, start};
pub use reply::answer_line;
pub use request_lines::{Request, read_line};
pub use stream::run;

// Room for any line that is printed.
pub const MOST: usize = 90264;

// How far a run has come: the line that is left open, how many bytes of input were taken, and how many of output were
// made.
#[derive(Drop)]
pub struct Progress {
    pub line: Line,
    pub taken: usize,
    pub made: usize,
}
