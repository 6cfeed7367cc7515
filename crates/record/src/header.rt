// The header: 10 bytes, the same in every form of a record but for the second, which marks the form.
ghost use Rattle.std.specs.Prelude.{◌≡◌, ◌≤◌, length};
ghost use Rattle.std.proofs.lemmas.List.Edits.{sets};
ghost use Rattle.answers.specs.Refusals.{code_of, number_of};
ghost use Rattle.record.specs.Header.{header_of, marked, fields};
ghost use Rattle.record.specs.Header.{kind_in, width_in, index_in, count_in, field_code, header_code, byte_of};

use super::bytes::{four, one, put, two};
use answers::{Refusal, known_kind};
use index::degree_of;
use widths::is_width;

// The 10 bytes before the coefficients.
pub fn put_header(bytes: &mut [u8], mark: u8, kind: u8, w: u8, n: u64, count: u64)
    requires { 10 ≤ length bytes.old }
    ensures { bytes.new ≡ sets bytes.old 0 (header_of mark kind w n count) }
{
    bytes[0] = 0xC9;
    bytes[1] = mark;
    bytes[2] = kind;
    bytes[3] = w;
    put(bytes, 4, 2, n);
    put(bytes, 6, 4, count);
}

fn is_marked(bytes: &[u8], mark: u8) -> bool
    requires { 10 ≤ length bytes.now }
    ensures { result ≡ marked mark bytes.now }
{
    bytes[0] == 0xC9 && bytes[1] == mark
}

// What stands in the fields.
pub fn kind_in(bytes: &[u8]) -> u64
    requires { 10 ≤ length bytes.now }
    ensures { result ≡ kind_in bytes.now }
{
    one(bytes, 2)
}

pub fn width_in(bytes: &[u8]) -> u64
    requires { 10 ≤ length bytes.now }
    ensures { result ≡ width_in bytes.now }
{
    one(bytes, 3)
}

pub fn index_in(bytes: &[u8]) -> u64
    requires { 10 ≤ length bytes.now }
    ensures { (result ≡ index_in bytes.now) × (result ≤ 65535) }
{
    two(bytes, 4)
}

pub fn count_in(bytes: &[u8]) -> u64
    requires { 10 ≤ length bytes.now }
    ensures { result ≡ count_in bytes.now }
{
    four(bytes, 6)
}

// Refuses by the first field that is wrong. The degree is worked out last: it takes n apart.
fn check_fields(bytes: &[u8]) -> Result<(), Refusal>
    requires { 10 ≤ length bytes.now }
    ensures { code_of result ≡ field_code fields bytes.now }
{
    let kind = kind_in(bytes);
    let kind_right = known_kind(kind);
    let width_right = is_width(width_in(bytes));
    if !kind_right {
        return Err(Refusal::RecordKind);
    }
    if !width_right {
        return Err(Refusal::RecordWidth);
    }
    let n = index_in(bytes);
    if n == 0 {
        return Err(Refusal::RecordIndex);
    }
    if count_in(bytes) != degree_of(kind, n) + 1 {
        return Err(Refusal::RecordCount);
    }
    Ok(())
}

// What the header says by itself: CUT, MARK, a wrong field, or nothing wrong.
pub fn check_header(bytes: &[u8], mark: u8) -> Result<(), Refusal>
    ensures { code_of result ≡ header_code mark bytes.now }
{
    if bytes.len() < 10 {
        return Err(Refusal::Cut);
    }
    if !is_marked(bytes, mark) {
        return Err(Refusal::Mark);
    }
    check_fields(bytes)
}

// The byte at which the field of a code starts.
pub fn byte_of(code: u64) -> u64
    ensures { result ≡ byte_of fields code }
{
    match code {
        answers::RKIND => 2,
        answers::RWIDTH => 3,
        answers::RINDEX => 4,
        answers::RCOUNT => 6,
        _ => 0,
    }
}

// The same by the refusal's name.
pub fn byte_for(refusal: Refusal) -> u64
    ensures { result ≡ byte_of fields (number_of refusal) }
{
    byte_of(u64::from(refusal))
}
