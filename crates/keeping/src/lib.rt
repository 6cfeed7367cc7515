// Inner: each `requires` is shown by `rescuing`. Which record of a shelf is kept, and the search for the next one. A
// polynomial is made only where the bytes read as a record, in scratch that holds whatever was made last.

#![tactic(auto)]

mod marks;
mod same;

ghost use Rattle.std.specs.Prelude.{◌≡◌, ◌≤◌, ◌<◌, length, drop};
ghost use Rattle.keeping.specs.Trying.{tried_of, sought_of};

use marks::next_mark;
use record::count_in;
use same::is_same;

// A record reads well, and there is too little room for its coefficients.
#[derive(Clone, Copy, Debug, PartialEq, Eq)]
pub struct Cramped;

// Is the record that some bytes start with kept?
fn try_one(bytes: &[u8], coeffs: &mut [i64]) -> Result<bool, Cramped>
    ensures value { result ≡ tried_of (length coeffs.old) bytes.now }
    ensures coeffs_len_unchanged { length coeffs.new ≡ length coeffs.old }
{
    if shelf::look(bytes) != answers::DONE {
        return Ok(false);
    }
    if (coeffs.len() as u64) < count_in(bytes) {
        return Err(Cramped);
    }
    Ok(is_same(bytes, coeffs))
}

// Is one kept at a place of a shelf? Only where the first byte is that of a mark is more looked at.
fn try_at(shelf: &[u8], at: usize, coeffs: &mut [i64]) -> Result<bool, Cramped>
    requires { at < length shelf.now }
    ensures value { result ≡ tried_of (length coeffs.old) (drop at shelf.now) }
    ensures coeffs_len_unchanged { length coeffs.new ≡ length coeffs.old }
{
    if shelf[at] != 0xC9 {
        return Ok(false);
    }
    try_one(&shelf[at..], coeffs)
}

// The place of the next record that is kept, from a place on, byte by byte: of those with which no mark starts none is
// tried. It ends at once when one is found; where there is none it is the shelf's end.
pub fn search(shelf: &[u8], from: usize, coeffs: &mut [i64]) -> Result<usize, Cramped>
    requires { from ≤ length shelf.now }
    ensures value { result ≡ sought_of (length coeffs.old) from (drop from shelf.now) }
    ensures coeffs_len_unchanged { length coeffs.new ≡ length coeffs.old }
{
    let mut at = from;
    // Stays a loop: docs/RULES.md has it that its break gives the place ('Rescue', in code).
    let place = loop {
        if shelf.len() <= at {
            break at;
        }
        if try_at(shelf, at, coeffs)? {
            break at;
        }
        at = next_mark(shelf, at + 1);
    };
    Ok(place)
}
