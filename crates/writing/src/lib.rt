// Inner: what is offered of it is in `shelf` and `half_records`. Both forms of a record written: the writer looks at
// everything, then stores.

#![tactic(auto)]

ghost use Rattle.std.specs.Prelude.{◌≡◌, ◌+◌, ◌<◌, ◌≤◌, true, ◌++◌, length, drop};
ghost use Rattle.std.proofs.lemmas.List.Edits.{sets};
ghost use Rattle.definitions.specs.Answer.{height_of};
ghost use Rattle.definitions.specs.Steps.{largest};
ghost use Rattle.definitions.specs.Requests.{known_kind, good_index};
ghost use Rattle.widths.specs.Numbers.{top, body, widths, one_of, width};
ghost use Rattle.forms.specs.Format.{record_of, size, uneven_for, write_answer, write_leaves};

use answers::{Refusal, negates};
use forms::{Form, Written, mark_of, stored_of};
use index::degree_of;
use record::{put_body, put_header};
use widths::least_width;

// The coefficients that are stored, behind the header, with a loop of its own for each width.
fn put_stored(coeffs: &[i64], w: usize, bytes: &mut [u8])
    requires { (one_of widths w ≡ true) × (height_of coeffs.now ≤ top w)
        × (10 + length (body w coeffs.now) ≤ length bytes.old) }
    ensures { bytes.new ≡ sets bytes.old 10 (body w coeffs.now) }
{
    match w {
        1 => put_body::<1>(coeffs, bytes),
        2 => put_body::<2>(coeffs, bytes),
        4 => put_body::<4>(coeffs, bytes),
        _ => put_body::<8>(coeffs, bytes),
    }
}

// The record, in bytes of which there are enough.
fn store(kind: u64, n: u64, w: usize, form: Form, coeffs: &[i64], bytes: &mut [u8])
    requires { (kind < 256) × (w ≡ width coeffs.now) × (0 < w) × (length coeffs.now ≤ 65536)
        × (size form coeffs.now ≤ length bytes.old) }
    ensures { bytes.new ≡ record_of form kind n coeffs.now ++ drop (size form coeffs.now)
        bytes.old }
{
    let k = stored_of(form, coeffs.len());
    put_header(
        bytes,
        mark_of(form),
        kind as u8,
        w as u8,
        n,
        coeffs.len() as u64,
    );
    put_stored(&coeffs[..k], w, bytes);
}

// Are there coefficients that the form does not take?
fn uneven_for(kind: u64, n: u64, form: Form, coeffs: &[i64]) -> bool
    requires { height_of coeffs.now ≤ largest }
    ensures { result ≡ uneven_for form kind n coeffs.now }
{
    match form {
        Form::Whole => false,
        Form::Half => half_passes::uneven(coeffs, negates(kind, n)),
    }
}

// Writing at a known kind and a good index.
fn write_with(kind: u64, n: u64, form: Form, coeffs: &[i64], bytes: &mut [u8]) -> Written
    requires { (known_kind kind ≡ true) × (good_index n ≡ true) }
    ensures answer { result ≡ write_answer form kind n coeffs.now (length bytes.old) }
    ensures leaves { bytes.new ≡ write_leaves form kind n coeffs.now bytes.old }
{
    let degree = degree_of(kind, n);
    let count = coeffs.len();
    if count as u64 != degree + 1 {
        return Written::of(Refusal::RecordCount, 0, 6);
    }
    let top = heights::peak(coeffs);
    let w = least_width(top.height);
    if w == 0 {
        return Written::of(Refusal::Over, degree, 0);
    }
    if uneven_for(kind, n, form, coeffs) {
        return Written::of(Refusal::Uneven, 0, 0);
    }
    let size = 10 + stored_of(form, count) * w;
    if bytes.len() < size {
        return Written::of(Refusal::Short, degree, 0);
    }
    store(kind, n, w, form, coeffs, bytes);
    Written {
        code: answers::DONE,
        degree,
        used: size as u64,
        byte: 0,
    }
}

// The record of some coefficients, in the bytes lent.
pub fn write(kind: u64, n: u64, form: Form, coeffs: &[i64], bytes: &mut [u8]) -> Written
    ensures answer { result ≡ write_answer form kind n coeffs.now (length bytes.old) }
    ensures leaves { bytes.new ≡ write_leaves form kind n coeffs.now bytes.old }
{
    if !answers::known_kind(kind) {
        return Written::of(Refusal::Kind, 0, 0);
    }
    if !answers::good_index(n) {
        return Written::of(Refusal::Index, 0, 0);
    }
    write_with(kind, n, form, coeffs, bytes)
}
