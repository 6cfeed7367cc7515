// The first line of an input, and the bounds that it asks for.

ghost use Rattle.std.specs.Prelude.{◌≡◌, ◌≤◌, length, take, ltb};
ghost use Rattle.census_lines.specs.Asked.{first_line, bounds_in};

use digits::{byte_at, number};

// What a good line asks for: the two bounds.
#[derive(Drop)]
pub(crate) struct Bounds {
    pub(crate) a: u64,
    pub(crate) b: u64,
}

// Where the first line ends: at its newline, or with the input.
pub(crate) fn first_line_end(input: &[u8]) -> usize
    ensures upper_bound { result ≤ length input.now }
    ensures input_value { take result input.now ≡ first_line input.now }
{
    input.iter().take_while(|b| **b != b'\n').count()
}

// Inner, for the program `census`: is the first line whole? Then what comes after it makes no difference, and need not
// be read.
pub fn has_newline(input: &[u8]) -> bool
    ensures { result ≡ ltb (length (first_line input.now)) (length input.now) }
{
    first_line_end(input) < input.len()
}

// A number, a space, a number, and nothing else; `None` where the line isn't good.
pub(crate) fn read_bounds(line: &[u8]) -> Option<Bounds>
    ensures { result ≡ bounds_in line.now }
{
    let (p, a) = number(line, 0)?;
    if byte_at(line, p) != b' ' {
        return None;
    }
    let (q, b) = number(line, 1 + p)?;
    let whole = line.len() == 1 + p + q;
    whole.then_some(Bounds { a, b })
}
