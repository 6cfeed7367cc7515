// Numbers in bytes, and the pass of the writer that stores coefficients in bytes.
ghost use Rattle.std.specs.Prelude.{◌≡◌, ◌+◌, ◌<◌, ◌≤◌, true, length};
ghost use Rattle.std.proofs.lemmas.List.Edits.{sets};
ghost use Rattle.definitions.specs.Answer.{height_of};
ghost use Rattle.widths.specs.Numbers.{bytes_of, top, body, widths, one_of};
ghost use Rattle.record.specs.Held.{Held};

use widths::twos_of;

pub(crate) fn wide(b: u8) -> u64
    ensures { result ≡ b }
{
    b as u64
}

// v in w bytes, from `at` on.
pub fn put(bytes: &mut [u8], at: usize, w: usize, v: u64)
    requires { at + w ≤ length bytes.old }
    ensures { bytes.new ≡ sets bytes.old at (bytes_of w v) }
{
    let mut rest = v;
    for i in at..at + w {
        bytes[i] = (rest % 256) as u8;
        rest /= 256;
    }
}

// The number in one byte, and in two, four and eight: each is two of the one before, which the compiler makes one load.
// Stays four functions: std's `from_le_bytes` takes an array, so at eight bytes it would list eight of them.
pub(crate) fn one(bytes: &[u8], at: usize) -> u64
    requires { at + 1 ≤ length bytes.now }
    ensures { Held 1 at bytes.now result }
{
    wide(bytes[at])
}

pub(crate) fn two(bytes: &[u8], at: usize) -> u64
    requires { at + 2 ≤ length bytes.now }
    ensures { Held 2 at bytes.now result }
{
    one(bytes, at) + 256 * one(bytes, at + 1)
}

pub(crate) fn four(bytes: &[u8], at: usize) -> u64
    requires { at + 4 ≤ length bytes.now }
    ensures { Held 4 at bytes.now result }
{
    two(bytes, at) + 65536 * two(bytes, at + 2)
}

fn eight(bytes: &[u8], at: usize) -> u64
    requires { at + 8 ≤ length bytes.now }
    ensures { Held 8 at bytes.now result }
{
    four(bytes, at) + 4294967296 * four(bytes, at + 4)
}

// The number in the w bytes from `at` on.
pub fn get(bytes: &[u8], at: usize, w: usize) -> u64
    requires { (one_of widths w ≡ true) × (at + w ≤ length bytes.now) }
    ensures { Held w at bytes.now result }
{
    match w {
        1 => one(bytes, at),
        2 => two(bytes, at),
        4 => four(bytes, at),
        _ => eight(bytes, at),
    }
}

// Writing, the store: each coefficient in W bytes, after the header.
pub fn put_body<const W: usize>(coeffs: &[i64], bytes: &mut [u8])
    requires { (0 < W) × (W ≤ 8) × (height_of coeffs.now ≤ top W)
        × (10 + length (body W coeffs.now) ≤ length bytes.old) }
    ensures { bytes.new ≡ sets bytes.old 10 (body W coeffs.now) }
{
    for (i, c) in coeffs.iter().enumerate() {
        put(bytes, 10 + i * W, W, twos_of(*c, W));
    }
}
