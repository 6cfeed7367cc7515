// The next byte of a shelf with which a mark may start: bytes that are none are passed by sixteens.
ghost use Rattle.std.specs.Prelude.{◌≡◌, false, ◌≤◌, length};
ghost use Rattle.keeping.specs.Trying.{Unmarked};

// Is there one among these? A loop that can't stop, and whose length is known, is made one of vectors.
fn is_marked(bytes: &[u8]) -> bool
    ensures { result ≡ false → Unmarked bytes.now 0 (length bytes.now) }
{
    let mut found = false;
    for b in bytes {
        found |= *b == 0xC9;
    }
    found
}

// The place that sixteens with none lead to, from a place on.
fn past_sixteens(shelf: &[u8], from: usize) -> usize
    requires { from ≤ length shelf.now }
    ensures { (from ≤ result) × (result ≤ length shelf.now) × Unmarked shelf.now from result }
{
    let mut at = from;
    // Stays a while: a for over the sixteens is a sixth slower where mark follows mark, with `step_by` by half.
    while 16 <= shelf.len() - at && !is_marked(&shelf[at..at + 16]) {
        at += 16;
    }
    at
}

// How many bytes are passed one by one.
fn past_bytes(bytes: &[u8]) -> usize
    ensures { (result ≤ length bytes.now) × Unmarked bytes.now 0 result }
{
    bytes.iter().position(|b| *b == 0xC9).unwrap_or(bytes.len())
}

// From a place on; the shelf's end where there is none.
pub(crate) fn next_mark(shelf: &[u8], from: usize) -> usize
    requires { from ≤ length shelf.now }
    ensures { (from ≤ result) × (result ≤ length shelf.now) × Unmarked shelf.now from result }
{
    let at = past_sixteens(shelf, from);
    at + past_bytes(&shelf[at..])
}
