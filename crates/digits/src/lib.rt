// Inner: `number_at` asks that the digits are few, which `number` shows. Reading digits in a line of bytes.

#![tactic(auto)]

ghost use Rattle.std.specs.Prelude.{◌≡◌, ◌≤◌, ◌<◌, get_or, drop};
ghost use Rattle.digits.specs.Digits.{digits_at, number_at, IsNumber};
ghost use Rattle.digits.specs.Digits.{between as isBetween};

pub fn between(low: usize, high: usize, x: usize) -> bool
    ensures { result ≡ isBetween low high x }
{
    (low..=high).contains(&x)
}

// The byte at a place, 0 past the end.
pub fn byte_at(line: &[u8], i: usize) -> u8
    ensures { result ≡ get_or line.now i 0 }
{
    line.get(i).copied().unwrap_or(0)
}

// What stands from a place on, nothing past the end.
fn from_place(line: &[u8], place: usize) -> &[u8]
    ensures { result.now ≡ drop place line.now }
{
    line.get(place..).unwrap_or(&[])
}

// How many digits stand at a place.
pub fn digits_at(line: &[u8], place: usize) -> usize
    ensures { result ≡ digits_at line.now place }
{
    from_place(line, place)
        .iter()
        .take_while(|b| b.is_ascii_digit())
        .count()
}

// The number that they say, where they are at most 9.
pub fn number_at(line: &[u8], place: usize, count: usize) -> u64
    requires { (count ≡ digits_at line.now place) × (count ≤ 9) }
    ensures { (result ≡ number_at line.now place) × (result < 1000000000) }
{
    let mut v = 0;
    for b in &from_place(line, place)[..count] {
        v = v * 10 + u64::from(b - b'0');
    }
    v
}

// A number of 1 to 9 digits at a place: how many digits, and what they say.
pub fn number(line: &[u8], place: usize) -> Option<(usize, u64)>
    ensures { IsNumber line.now place result }
{
    let count = digits_at(line, place);
    if !between(1, 9, count) {
        return None;
    }
    Some((count, number_at(line, place, count)))
}
