// The text that the program `census` prints (docs/RULES.md, 'The census of heights') for the bytes that it read:
// `asked` takes the first line apart, `reply` puts what answers it.

#![tactic(auto)]

mod asked;
mod reply;

pub use asked::has_newline;
pub use reply::answer_input;

// Room for any text that is printed.
pub const MOST: usize = 4096;
