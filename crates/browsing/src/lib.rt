// What stands at a place of a shelf, which is records one after another, for the browsing window: nothing is copied and
// no coefficient is stored. Nothing is asked of the caller. `turn_at`, `stretch_of`, `part` and `between` are inner:
// the reader and the crate `shelves` use them.

#![tactic(auto)]

pub mod reader;

ghost use Rattle.std.specs.Prelude.{◌≡◌, ◌+◌, ◌-◌, ◌<◌, ◌^◌, length};
ghost use Rattle.definitions.specs.Codes.{DONE};
ghost use Rattle.shelf.specs.Format.{look_code};
ghost use Rattle.browsing.specs.Browse.{shown_of, shown_at, place_after, turn_at, told};
ghost use Rattle.browsing.specs.Browse.{start_of, length_of, part_of, lies};

use record::{count_in, index_in, kind_in};
use shelf::size_in;

// What is shown of a shelf.
// Stays an enum: the end tells its place too, which no None does, and a reader stays there as at a refusal.
#[derive(Clone, Copy)]
pub enum Shown {
    // A record that reads well: the shelf from `start` up to `end`, and what its header says.
    Record {
        start: usize,
        end: usize,
        kind: u64,
        n: u64,
        degree: u64,
    },
    // A record that doesn't read: its code, and where it starts.
    Refused {
        code: u64,
        start: usize,
    },
    // Nothing is left: `start` is the shelf's length.
    End {
        start: usize,
    },
}

// What stands at a place, and the place after it.
#[derive(Drop)]
pub struct Turn {
    pub shown: Shown,
    pub at: usize,
}

// The same in numbers, for C.
#[repr(C)]
#[derive(Drop)]
pub struct Browsed {
    pub code: u64,
    pub start: u64,
    pub length: u64,
    pub kind: u64,
    pub n: u64,
    pub degree: u64,
}

impl Browsed {
    // A refusal, or the end: its code and its place; the rest is 0.
    fn without_record(code: u64, start: u64) -> Browsed
        ensures { result ≡ record { code = code; start = start; length = 0; kind = 0; n = 0; degree = 0 } }
    {
        Browsed {
            code,
            start,
            length: 0,
            kind: 0,
            n: 0,
            degree: 0,
        }
    }
}

// What was shown, in numbers.
impl From<Shown> for Browsed {
    ghost from_gives = { λ shown browsed. browsed ≡ told shown };

    fn from(shown: Shown) -> Browsed
        ensures { result ≡ told shown }
    {
        match shown {
            Shown::Record {
                start,
                end,
                kind,
                n,
                degree,
            } => Browsed {
                code: answers::DONE,
                start: start as u64,
                length: between(start, end) as u64,
                kind,
                n,
                degree,
            },
            Shown::Refused { code, start } => Browsed::without_record(code, start as u64),
            Shown::End { start } => Browsed::without_record(answers::DONE, start as u64),
        }
    }
}

// A record that reads well, at a place of a shelf.
fn record_of(bytes: &[u8], at: usize) -> Shown
    requires { (look_code bytes.now ≡ DONE) × (at + length bytes.now < 2 ^ 64) }
    ensures { result ≡ shown_of at bytes.now }
{
    Shown::Record {
        start: at,
        end: at + size_in(bytes),
        kind: kind_in(bytes),
        n: index_in(bytes),
        degree: count_in(bytes) - 1,
    }
}

// What stands at a place of a shelf.
pub fn shown_at(shelf: &[u8], at: usize) -> Shown
    ensures { result ≡ shown_at shelf.now at }
{
    if shelf.len() <= at {
        return Shown::End { start: shelf.len() };
    }
    let bytes = &shelf[at..];
    let code = shelf::look(bytes);
    if code != answers::DONE {
        return Shown::Refused { code, start: at };
    }
    record_of(bytes, at)
}

// The place after what was shown.
fn place_after(shown: Shown) -> usize
    ensures { result ≡ place_after shown }
{
    match shown {
        Shown::Record { end, .. } => end,
        Shown::Refused { start, .. } => start,
        Shown::End { start } => start,
    }
}

// What stands at a place, with the place after it: past a record; a refusal and the end stay.
pub fn turn_at(shelf: &[u8], at: usize) -> Turn
    ensures { result ≡ turn_at shelf.now at }
{
    let shown = shown_at(shelf, at);
    Turn {
        shown,
        at: place_after(shown),
    }
}

// So many bytes of a shelf from a place on, or what there is of them: no copy, a part of the shelf itself.
pub fn part<'a>(shelf: &'a [u8], start: usize, length: usize) -> &'a [u8]
    ensures part { result.now ≡ part_of shelf.entry start length }
    ensures lies { result.ref_ptr ≡ lies shelf.entry start }
{
    let from = start.min(shelf.len());
    let rest = &shelf[from..];
    let size = length.min(rest.len());
    &rest[..size]
}

// How many bytes there are from one place to another.
pub fn between(start: usize, end: usize) -> usize
    ensures { result ≡ end - start }
{
    end.saturating_sub(start)
}

// That very stretch of a shelf which was shown; an empty one where none was.
pub fn stretch_of<'a>(shelf: &'a [u8], shown: Shown) -> &'a [u8]
    ensures { (result.now ≡ part_of shelf.entry (start_of shown) (length_of shown))
        × (result.ref_ptr ≡ lies shelf.entry (start_of shown)) }
{
    match shown {
        Shown::Record { start, end, .. } => part(shelf, start, between(start, end)),
        Shown::Refused { .. } => part(shelf, 0, 0),
        Shown::End { .. } => part(shelf, 0, 0),
    }
}

// What stands at a place of a shelf, in numbers.
pub fn browse(shelf: &[u8], at: u64) -> Browsed
    ensures { result ≡ told (shown_at shelf.now at) }
{
    Browsed::from(shown_at(shelf, at as usize))
}
