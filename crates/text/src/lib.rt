// Inner: numbers as text in byte buffers, for our own programs alone. Each function puts something at a place and
// answers the next place; the caller sees to the room.
// Stays a buffer and a place: a struct that holds the `&mut` proves as well, but each function then has a clause more,
// that it keeps the reference, since by that alone the caller learns what its buffer holds; and what is offered outside
// takes a buffer anyway.
// Stays functions, not `Display` and `write!`: std's writers over a `&mut [u8]` name no `contents`, so a `write!` into
// one promises nothing of its bytes.

#![tactic(auto)]

ghost use Rattle.std.specs.Prelude.{◌≡◌, [], ◌∷◌, ◌+◌, ◌*◌, ◌≤◌, ◌<◌, length, take, set, pos};
ghost use Rattle.text.specs.Text.{MINUS, decimal, spaced, sign};
ghost use Rattle.text.specs.Puts.{Puts};

use heights::magnitude;

pub fn put(out: &mut [u8], at: usize, b: u8) -> usize
    requires { at < length out.old }
    ensures { Puts (b ∷ []) at out.old out.new result }
{
    out[at] = b;
    at + 1
}

// A text as it stands.
pub fn put_text(out: &mut [u8], at: usize, bytes: &[u8]) -> usize
    requires { at + length bytes.now ≤ length out.old }
    ensures { Puts bytes.now at out.old out.new result }
{
    let end = at + bytes.len();
    out[at..end].copy_from_slice(bytes);
    end
}

// A number's digits: those of its tenth, and the last one. Stays our own: by the kit's `itoa` its statement would have
// to be believed too.
fn put_digits(out: &mut [u8], at: usize, n: u64) -> usize
    requires { at + length (decimal n) ≤ length out.old }
    ensures { Puts (decimal n) at out.old out.new result }
{
    if n < 10 {
        return put(out, at, b'0' + n as u8);
    }
    let p = put_digits(out, at, n / 10);
    put(out, p, b'0' + (n % 10) as u8)
}

// The same; nearly all numbers have one digit.
pub fn put_number(out: &mut [u8], at: usize, n: u64) -> usize
    requires { at + 20 ≤ length out.old }
    ensures puts { Puts (decimal n) at out.old out.new result }
    ensures upper_bound { result ≤ at + 20 }
{
    if n < 10 {
        return put(out, at, b'0' + n as u8);
    }
    put_digits(out, at, n)
}

// A space and a number.
pub fn put_item(out: &mut [u8], at: usize, n: u64) -> usize
    requires { at + 21 ≤ length out.old }
    ensures puts { Puts (spaced (pos n ∷ [])) at out.old out.new result }
    ensures upper_bound { result ≤ at + 21 }
{
    let p = put(out, at, b' ');
    put_number(out, p, n)
}

// A minus sign is written whatever c is, and stays where c is negative: else the digits begin in its place. A branch
// for every coefficient would take longer.
fn put_sign(out: &mut [u8], at: usize, c: i64) -> usize
    requires { at < length out.old }
    ensures out_after { out.new ≡ set out.old at MINUS }
    ensures value { result ≡ at + length (sign c) }
{
    let p = put(out, at, b'-');
    if c < 0 {
        return p;
    }
    at
}

// A space and a signed number.
pub fn put_signed(out: &mut [u8], at: usize, c: i64) -> usize
    requires { at + 22 ≤ length out.old }
    ensures puts { Puts (spaced (c ∷ [])) at out.old out.new result }
    ensures upper_bound { result ≤ at + 22 }
{
    let p = put(out, at, b' ');
    let q = put_sign(out, p, c);
    put_number(out, q, magnitude(c))
}

// The first so many coefficients.
pub fn put_coefficients(out: &mut [u8], at: usize, entries: &[i64], count: usize) -> usize
    requires { (count ≤ length entries.now) × (at + 22 * count ≤ length out.old) }
    ensures puts { Puts (spaced (take count entries.now)) at out.old out.new result }
    ensures upper_bound { result ≤ at + 22 * count }
{
    let mut p = at;
    for c in &entries[..count] {
        p = put_signed(out, p, *c);
    }
    p
}
