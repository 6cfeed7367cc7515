// A reader: the lent shelf together with its place. The work is done by `turn_at` and `stretch_of`, whose parameters
// are plain.
ghost use Rattle.std.specs.Prelude.{◌≡◌};
ghost use Rattle.browsing.specs.Browse.{start_of, length_of, part_of, lies};
ghost use Rattle.browsing.specs.Reading.{opened, turn_of, moved};

use crate::{Shown, stretch_of, turn_at};

#[derive(Drop)]
pub struct Reader<'a> {
    pub shelf: &'a [u8],
    pub at: usize,
}

pub fn open<'a>(shelf: &'a [u8]) -> Reader<'a>
    ensures { result ≡ opened shelf.entry }
{
    Reader { shelf, at: 0 }
}

// What stands at the reader's place; the place moves past a record, and stays at a refusal and at the end.
pub fn next<'s, 'a>(reader: &'s mut Reader<'a>) -> Shown
    ensures { (result ≡ (turn_of reader.old).shown) × (reader.new ≡ moved reader.old) }
{
    let at = reader.at;
    let turn = turn_at(reader.shelf, at);
    reader.at = turn.at;
    turn.shown
}

// The stretch of the shelf that was shown.
pub fn stretch<'a>(reader: Reader<'a>, shown: Shown) -> &'a [u8]
    ensures { (result.now ≡ part_of reader.entry.shelf (start_of shown) (length_of shown))
        × (result.ref_ptr ≡ lies reader.entry.shelf (start_of shown)) }
{
    stretch_of(reader.shelf, shown)
}
