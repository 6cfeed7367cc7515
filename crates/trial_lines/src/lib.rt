// An inner crate: what a line of the program `trial` asks, read word by word: a name, numbers, a list of indices, and
// buffers of entries and of bytes (second/README.md has the form). Little is promised, only that each function is safe
// and ends, and how much of a buffer can be lent: what is made of what was read is printed, and held to a stored
// output.
//
// A reader is given the line from the byte before its word on, and hands back the line after it. Where its word is not
// there it hands back what it was given: so a line is good where nothing is left of it.

#![tactic(auto)]

ghost use Rattle.std.specs.Prelude.{◌≤◌, IfSome, length};

// Up to 12 indices, and how many.
#[derive(Drop)]
pub struct Listed {
    pub values: [u64; 12],
    pub count: usize,
}

// The name that a line starts with, up to a space: a number in base 32 whose digits are its letters, a as 1. So no two
// names of up to 12 small letters are the same.
// Stays a number: the program takes a letter by its last five bits, capital letters for small ones among them, and has
// to go on doing so.
pub fn name<'a>(line: &'a [u8]) -> (u64, &'a [u8]) {
    let end = line.iter().position(|b| *b == b' ').unwrap_or(line.len());
    let mut bits: u64 = 0;
    for b in &line[..end] {
        bits = bits % 576460752303423488 * 32 + u64::from(*b % 32);
    }
    (bits, &line[end..])
}

// A number that a text starts with: a negative one as what it is modulo 2^64. More than a u64 holds wraps.
fn number<'a>(text: &'a [u8]) -> Option<(u64, &'a [u8])> {
    let digits = text.strip_prefix(b"-").unwrap_or(text);
    let count = digits.iter().take_while(|b| b.is_ascii_digit()).count();
    if count == 0 {
        return None;
    }
    let mut bits: u64 = 0;
    for b in &digits[..count] {
        bits = (bits % 1844674407370955162 * 10).wrapping_add(u64::from(*b % 16));
    }
    if digits.len() < text.len() {
        bits = bits.wrapping_neg();
    }
    Some((bits, &digits[count..]))
}

// A word that is a number with a space after it.
fn whole_number<'a>(line: &'a [u8]) -> Option<(u64, &'a [u8])> {
    let (bits, rest) = number(line.strip_prefix(b" ")?)?;
    if rest.first() == Some(&b' ') {
        Some((bits, rest))
    } else {
        None
    }
}

// Numbers, as many as have a space after them, and four at most.
pub fn numbers<'a>(line: &'a [u8]) -> ([u64; 4], &'a [u8]) {
    let mut row = [0u64; 4];
    let mut rest = line;
    for place in row.iter_mut() {
        let Some((bits, after)) = whole_number(rest) else {
            break;
        };
        *place = bits;
        rest = after;
    }
    (row, rest)
}

// A list of indices: after an n, with commas between; or none, where the word has no n. More than there is room for is
// not cut but no good word.
pub fn indices<'a>(line: &'a [u8]) -> (Listed, &'a [u8])
    ensures { result.0.count ≤ 12 }
{
    let mut values = [0u64; 12];
    let mut count = 0;
    let mut rest = line;
    if let Some(list) = line.strip_prefix(b" n") {
        rest = list;
        for place in values.iter_mut() {
            let text = if count == 0 {
                rest
            } else {
                rest.strip_prefix(b",").unwrap_or(b"")
            };
            let Some((bits, after)) = number(text) else {
                break;
            };
            *place = bits;
            count += 1;
            rest = after;
        }
    }
    (Listed { values, count }, rest)
}

// Entries that are a length, a star and what each of them holds.
fn repeated<'a>(line: &'a [u8], buf: &mut [i64]) -> Option<(usize, &'a [u8])>
    ensures { IfSome result (λ read. read.0 ≤ length buf.new) }
{
    let (times, after) = number(line.strip_prefix(b" ")?)?;
    let (bits, after) = number(after.strip_prefix(b"*")?)?;
    if (buf.len() as u64) < times {
        return None;
    }
    let times = times as usize;
    buf[..times].fill(bits.cast_signed());
    Some((times, after))
}

// Entries that are spelled out, with commas between. More than there are is not cut but no good word.
fn spelled<'a>(line: &'a [u8], buf: &mut [i64]) -> (usize, &'a [u8])
    ensures { result.0 ≤ length buf.new }
{
    let mut count = 0;
    let mut rest = line;
    for place in buf.iter_mut() {
        let before: &[u8] = if count == 0 { b" " } else { b"," };
        let Some((bits, after)) = number(rest.strip_prefix(before).unwrap_or(b"")) else {
            break;
        };
        *place = bits.cast_signed();
        count += 1;
        rest = after;
    }
    (count, rest)
}

// Entries, and how many.
pub fn entries<'a>(line: &'a [u8], buf: &mut [i64]) -> (usize, &'a [u8])
    ensures { result.0 ≤ length buf.new }
{
    match repeated(line, buf) {
        Some(read) => read,
        None => spelled(line, buf),
    }
}

// What a digit counts for, in hexadecimal.
fn digit(b: u8) -> Option<u8>
    ensures { IfSome result (λ v. v ≤ 15) }
{
    match b {
        b'0'..=b'9' => Some(b - b'0'),
        b'a'..=b'f' => Some(b - b'a' + 10),
        _ => None,
    }
}

// A byte, and the line after it.
fn byte<'a>(line: &'a [u8]) -> Option<(u8, &'a [u8])> {
    let high = digit(*line.first()?)?;
    let low = digit(*line.get(1)?)?;
    Some((high * 16 + low, &line[2..]))
}

// Bytes: in hexadecimal after an x, two digits each; or none, where the line ends.
pub fn bytes<'a>(line: &'a [u8], buf: &mut [u8]) -> (usize, &'a [u8])
    ensures { result.0 ≤ length buf.new }
{
    let mut rest = if line.get(1) == Some(&b'x') {
        &line[2..]
    } else {
        line
    };
    let mut count = 0;
    for place in buf.iter_mut() {
        let Some((b, after)) = byte(rest) else {
            break;
        };
        *place = b;
        count += 1;
        rest = after;
    }
    (count, rest)
}

// How much of a buffer is lent: as much as is asked for, or all.
pub fn room(asked: u64, len: usize) -> usize
    ensures { result ≤ len }
{
    asked.min(len as u64) as usize
}
