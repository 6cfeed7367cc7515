// The house shelf and one's own: the walk over a shelf, and the lookup in two, the own one first. Nothing is copied and
// no coefficient is stored. Nothing is asked of the caller.

#![tactic(auto)]

ghost use Rattle.std.specs.Prelude.{◌≡◌, ◌&&◌, eqb};
ghost use Rattle.definitions.specs.Codes.{ABSENT};
ghost use Rattle.answers.specs.Refusals.{number_of};
ghost use Rattle.shelves.specs.Walk.{walked};
ghost use Rattle.shelves.specs.Lookup.{OWN, HOUSE, refused, found_by, found, held_by, held_at};

use answers::Refusal;
use browsing::{Shown, between, part, shown_at};

// The shelves by their numbers; 0 is none.
// Stay numbers: C is told them in `Found`, and `held` reads them back from there.
const OWN: u64 = 1;

const HOUSE: u64 = 2;

// How a walk over a shelf came out.
// Stays an enum: a match, a stop and the end are three outcomes; in an Option in a Result the end would be an Ok(None).
#[derive(Drop)]
pub enum Walked {
    // The first record of that kind and index: the shelf from `start` up to `end`.
    Match { start: usize, end: usize },
    // A record that doesn't read, before any such: its code, and where it starts.
    Stopped { code: u64, start: usize },
    // No such record, and the shelf's end.
    Ended,
}

// What a lookup answers: the code; where and in which shelf a record doesn't read; and from which shelf the stretch is,
// where it starts and how long it is.
#[repr(C)]
#[derive(Drop)]
pub struct Found {
    pub code: u64,
    pub byte: u64,
    pub shelf: u64,
    pub from: u64,
    pub start: u64,
    pub length: u64,
}

impl Found {
    // A refusal.
    fn refused(code: u64, byte: u64, shelf: u64) -> Found
        ensures { result ≡ refused code byte shelf }
    {
        Found {
            code,
            byte,
            shelf,
            from: 0,
            start: 0,
            length: 0,
        }
    }

    // A refusal for no byte of a shelf.
    fn without(refusal: Refusal) -> Found
        ensures { result ≡ refused (number_of refusal) 0 0 }
    {
        Found::refused(u64::from(refusal), 0, 0)
    }

    // What a walk over a shelf decides; ABSENT where it came to the end.
    fn by(shelf: u64, walked: Walked) -> Found
        ensures { result ≡ found_by shelf walked (refused ABSENT 0 0) }
    {
        match walked {
            Walked::Match { start, end } => Found {
                code: answers::DONE,
                byte: 0,
                shelf: 0,
                from: shelf,
                start: start as u64,
                length: between(start, end) as u64,
            },
            Walked::Stopped { code, start } => Found::refused(code, start as u64, shelf),
            Walked::Ended => Found::without(Refusal::Absent),
        }
    }
}

// Is a record of kind k and index m what is asked for?
fn is_asked(kind: u64, n: u64, k: u64, m: u64) -> bool
    ensures { result ≡ (eqb k kind && eqb m n) }
{
    k == kind && m == n
}

// The walk over a shelf, to the first record of a kind and an index.
pub fn walk(kind: u64, n: u64, shelf: &[u8]) -> Walked
    ensures { result ≡ walked kind n shelf.now }
{
    let mut at = 0;
    // Stays a while: each turn goes on where the record that is shown ends.
    while at < shelf.len() {
        match shown_at(shelf, at) {
            Shown::Record {
                start,
                end,
                kind: k,
                n: m,
                ..
            } => {
                if is_asked(kind, n, k, m) {
                    return Walked::Match { start, end };
                }
                at = end;
            }
            Shown::Refused { code, start } => return Walked::Stopped { code, start },
            Shown::End { .. } => return Walked::Ended,
        }
    }
    Walked::Ended
}

// The lookup at a known kind and a good index: the house is looked at only where one's own shelf came to its end.
fn find_with(kind: u64, n: u64, own: &[u8], house: &[u8]) -> Found
    ensures { result
        ≡ found_by OWN (walked kind n own.now)
        (found_by HOUSE (walked kind n house.now) (refused ABSENT 0 0)) }
{
    let first = walk(kind, n, own);
    match first {
        Walked::Ended => Found::by(HOUSE, walk(kind, n, house)),
        _ => Found::by(OWN, first),
    }
}

// The lookup in two shelves, in numbers: whoever asks for the stretch itself calls `held` or `lookup`.
pub fn find(kind: u64, n: u64, own: &[u8], house: &[u8]) -> Found
    ensures { result ≡ found kind n own.now house.now }
{
    if !answers::known_kind(kind) {
        return Found::without(Refusal::Kind);
    }
    if !answers::good_index(n) {
        return Found::without(Refusal::Index);
    }
    find_with(kind, n, own, house)
}

// The stretch that was found: of whichever shelf held it, with no copy; an empty one with a refusal.
pub fn held<'a>(f: Found, own: &'a [u8], house: &'a [u8]) -> &'a [u8]
    ensures held { result.now ≡ held_by f own.entry house.entry }
    ensures lies { result.ref_ptr ≡ held_at f own.entry house.entry }
{
    match f.from {
        OWN => part(own, f.start as usize, f.length as usize),
        HOUSE => part(house, f.start as usize, f.length as usize),
        _ => part(house, 0, 0),
    }
}

// The lookup: that very stretch of one of two shelves; an empty one with a refusal, which `find` tells.
pub fn lookup<'a>(kind: u64, n: u64, own: &'a [u8], house: &'a [u8]) -> &'a [u8]
    ensures held { result.now ≡ held_by (found kind n own.now house.now) own.entry house.entry }
    ensures lies { result.ref_ptr ≡ held_at (found kind n own.now house.now) own.entry house.entry }
{
    held(find(kind, n, own, house), own, house)
}
