// Inner: what is offered of it is in `shelf` and `half_records`; each `requires` is shown by crates above. Both forms
// of a record read: the reader looks at everything, then stores. And the look by itself, for whoever walks over
// records.

#![tactic(auto)]

ghost use Rattle.std.specs.Prelude.{◌≡◌, ℕ, ◌≤◌, ◌++◌, eqb, length, drop};
ghost use Rattle.definitions.specs.Codes.{DONE};
ghost use Rattle.answers.specs.Refusals.{number_of, code_of};
ghost use Rattle.definitions.specs.Halves.{negates};
ghost use Rattle.widths.specs.Numbers.{width};
ghost use Rattle.record.specs.Header.{width_in, kind_in, index_in, count_in, header_code};
ghost use Rattle.forms.specs.Format.{mark, stored, stored_in, coefficients_in, size_in, uneven_in, read_code};
ghost use Rattle.forms.specs.Format.{look_code, read_tells, read_answer, read_leaves};

use answers::{Refusal, negates};
use forms::{Form, Record, mark_of, stored_of};
use record::{
    byte_for, check_header, count_in, fill, get, index_in, kind_in, right_width, width_in,
};

// How many coefficients a form stores where the header, whatever its mark, is right.
fn stored_in(bytes: &[u8], form: Form) -> usize
    requires { (m : ℕ) × (header_code m bytes.now ≡ DONE) }
    ensures { (result ≡ stored form (count_in bytes.now)) × (result ≤ 65536) }
{
    stored_of(form, count_in(bytes) as usize)
}

// And the bytes of its record.
pub fn size_in(bytes: &[u8], form: Form) -> usize
    requires { (m : ℕ) × (header_code m bytes.now ≡ DONE) }
    ensures { result ≡ size_in form bytes.now }
{
    let w = width_in(bytes) as usize;
    10 + stored_in(bytes, form) * w
}

// Is the width in the header that of the coefficients?
fn right_in(bytes: &[u8], form: Form) -> bool
    requires { (header_code (mark form) bytes.now ≡ DONE) × (size_in form bytes.now ≤ length bytes.now) }
    ensures { result ≡ eqb (width (stored_in form bytes.now)) (width_in bytes.now) }
{
    right_width(bytes, width_in(bytes) as usize, stored_in(bytes, form))
}

// Does the whole change its sign when it is mirrored?
pub fn negates_in(bytes: &[u8]) -> bool
    requires { 10 ≤ length bytes.now }
    ensures { result ≡ negates (kind_in bytes.now) (index_in bytes.now) }
{
    negates(kind_in(bytes), index_in(bytes))
}

// Is the middle of a half record nonzero where it would have to be its own negative?
fn middle_in(bytes: &[u8]) -> bool
    requires { (header_code (mark Form.Half) bytes.now ≡ DONE)
        × (size_in Form.Half bytes.now ≤ length bytes.now) }
    ensures { result ≡ uneven_in Form.Half bytes.now }
{
    let w = width_in(bytes) as usize;
    let count = count_in(bytes) as usize;
    if !negates_in(bytes) {
        return false;
    }
    if count % 2 == 0 {
        return false;
    }
    get(bytes, 10 + count / 2 * w, w) != 0
}

fn uneven_in(bytes: &[u8], form: Form) -> bool
    requires { (header_code (mark form) bytes.now ≡ DONE) × (size_in form bytes.now ≤ length bytes.now) }
    ensures { result ≡ uneven_in form bytes.now }
{
    match form {
        Form::Whole => false,
        Form::Half => middle_in(bytes),
    }
}

// Refuses what is wrong past a right header.
fn check_rest(bytes: &[u8], form: Form, room: usize) -> Result<(), Refusal>
    requires { header_code (mark form) bytes.now ≡ DONE }
    ensures { code_of result ≡ read_code form bytes.now room }
{
    if bytes.len() < size_in(bytes, form) {
        return Err(Refusal::Cut);
    }
    if (room as u64) < count_in(bytes) {
        return Err(Refusal::Short);
    }
    let right = right_in(bytes, form);
    let uneven = uneven_in(bytes, form);
    if !right {
        return Err(Refusal::Width);
    }
    if uneven {
        return Err(Refusal::Uneven);
    }
    Ok(())
}

fn check(bytes: &[u8], form: Form, room: usize) -> Result<(), Refusal>
    ensures { code_of result ≡ read_code form bytes.now room }
{
    // Stays written out: by `?` a refusal handed on wrongly would fail for its form, not for what is promised.
    if let Err(refusal) = check_header(bytes, mark_of(form)) {
        return Err(refusal);
    }
    check_rest(bytes, form, room)
}

// Every test but that of the room: no polynomial has more than 65,536 coefficients. Nothing is stored.
pub fn look(bytes: &[u8], form: Form) -> Result<(), Refusal>
    ensures { code_of result ≡ look_code form bytes.now }
{
    check(bytes, form, 65536)
}

// What is told with a refusal of reading.
fn refused(bytes: &[u8], form: Form, refusal: Refusal) -> Record
    requires { (room : ℕ) × (read_code form bytes.now room ≡ number_of refusal) }
    ensures { result ≡ read_tells form bytes.now (number_of refusal) }
{
    match refusal {
        Refusal::Short => Record::of(refusal, count_in(bytes) - 1, 0),
        _ => Record::of(refusal, 0, byte_for(refusal)),
    }
}

// What is told of a record that reads.
fn told(bytes: &[u8], form: Form) -> Record
    requires { header_code (mark form) bytes.now ≡ DONE }
    ensures { result ≡ read_tells form bytes.now DONE }
{
    Record {
        code: answers::DONE,
        degree: count_in(bytes) - 1,
        used: size_in(bytes, form) as u64,
        kind: kind_in(bytes),
        n: index_in(bytes),
        byte: 0,
    }
}

// The store of a record that reads: what it has, and of a half record the other half too.
fn fill_stored(bytes: &[u8], form: Form, coeffs: &mut [i64])
    requires { read_code form bytes.now (length coeffs.old) ≡ DONE }
    ensures { coeffs.new
        ≡ stored_in form bytes.now
        ++ drop (length (stored_in form bytes.now)) coeffs.old }
{
    fill(
        bytes,
        width_in(bytes) as usize,
        stored_in(bytes, form),
        coeffs,
    );
}

fn rebuild(bytes: &[u8], coeffs: &mut [i64])
    requires { read_code Form.Half bytes.now (length coeffs.old) ≡ DONE }
    ensures { coeffs.new
        ≡ coefficients_in Form.Half bytes.now ++ drop (count_in bytes.now) coeffs.old }
{
    fill_stored(bytes, Form::Half, coeffs);
    let count = count_in(bytes) as usize;
    shapes::mirror(&mut coeffs[..count], negates_in(bytes));
}

fn deliver(bytes: &[u8], form: Form, coeffs: &mut [i64])
    requires { read_code form bytes.now (length coeffs.old) ≡ DONE }
    ensures { coeffs.new
        ≡ coefficients_in form bytes.now ++ drop (count_in bytes.now) coeffs.old }
{
    match form {
        Form::Whole => fill_stored(bytes, Form::Whole, coeffs),
        Form::Half => rebuild(bytes, coeffs),
    }
}

// The coefficients of the record that some bytes start with, in the entries lent.
pub fn read(bytes: &[u8], form: Form, coeffs: &mut [i64]) -> Record
    ensures answer { result ≡ read_answer form bytes.now (length coeffs.old) }
    ensures leaves { coeffs.new ≡ read_leaves form bytes.now coeffs.old }
{
    if let Err(refusal) = check(bytes, form, coeffs.len()) {
        return refused(bytes, form, refusal);
    }
    deliver(bytes, form, coeffs);
    told(bytes, form)
}
