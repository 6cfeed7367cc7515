// An inner crate: how the program `trial` tells what stands in a buffer of entries or of bytes (second/README.md has the
// form), and where it prints. Nothing is promised but that each function is safe and ends: what is printed is held to a
// stored output.

#![tactic(auto)]

ghost use Rattle.std.specs.Prelude.{◌<◌};

use std::fmt;

// The modulus of a sum over a buffer: a prime, and half of one less is a prime too.
const PRIME: u64 = 144115188075851879;

// How many entries are spelled out.
const FEW: usize = 64;

// Standard output.
const STDOUT: i32 = 1;

// So many bytes of a line go out together.
const MOST: usize = 1024;

// Standard output by the kit's `io`, which rests on write alone: std's streams ask errno too. A line is gathered, so
// that a short one takes one call. What can't be written is passed over.
#[derive(Drop)]
pub struct Console {
    bytes: [u8; MOST],
    count: usize,
}

impl Console {
    pub fn new() -> Console {
        Console {
            bytes: [0; MOST],
            count: 0,
        }
    }

    // Writes what is gathered.
    fn flush(&mut self) {
        let gathered = self.bytes.get(..self.count).unwrap_or(&[]);
        io::write_all(STDOUT, gathered);
        self.count = 0;
    }

    fn push(&mut self, b: u8) {
        if self.count == MOST {
            self.flush();
        }
        if let Some(place) = self.bytes.get_mut(self.count) {
            *place = b;
            self.count += 1;
        }
        if b == b'\n' {
            self.flush();
        }
    }
}

impl fmt::Write for Console {
    fn write_str(&mut self, s: &str) -> fmt::Result {
        for b in s.as_bytes() {
            self.push(*b);
        }
        Ok(())
    }
}

// Numbers after a colon: spelled out, or their sum.
#[derive(Drop)]
pub struct Entries<'a, T>(pub &'a [T]);

// Bytes after a colon, in hexadecimal.
#[derive(Drop)]
pub struct Bytes<'a>(pub &'a [u8]);

// A number of a buffer.
pub trait Entry: fmt::Display {
    // What it is modulo the prime.
    fn residue(&self) -> u64
        ensures { result < 144115188075851879 };
}

impl Entry for i64 {
    fn residue(&self) -> u64 {
        self.rem_euclid(PRIME as i64) as u64
    }
}

impl Entry for u64 {
    fn residue(&self) -> u64 {
        *self % PRIME
    }
}

// No two of the first 131,072 powers of 31 are the same modulo the prime, so two entries that differ modulo it can't
// change places and leave the sum as it was.
fn sum<T: Entry>(entries: &[T]) -> u64 {
    let mut h: u64 = 1;
    for c in entries {
        h = (h * 31 + c.residue()) % PRIME;
    }
    h
}

impl<T: Entry> fmt::Display for Entries<'_, T> {
    fn fmt<W: fmt::Write>(&self, f: &mut fmt::Formatter<W>) -> fmt::Result {
        f.write_str(" :")?;
        if FEW < self.0.len() {
            return write!(f, " #{}", sum(self.0));
        }
        for (i, c) in self.0.iter().enumerate() {
            f.write_str(if i == 0 { " " } else { "," })?;
            write!(f, "{c}")?;
        }
        Ok(())
    }
}

impl fmt::Display for Bytes<'_> {
    fn fmt<W: fmt::Write>(&self, f: &mut fmt::Formatter<W>) -> fmt::Result {
        f.write_str(" : x")?;
        for b in self.0 {
            write!(f, "{b:02x}")?;
        }
        Ok(())
    }
}
