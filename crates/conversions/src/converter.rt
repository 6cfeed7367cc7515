// The converter, over the form of what it is given: looks at everything, then stores. It refuses what reading does but
// for the room, then what the other form does not take, then too little room for it.
ghost use Rattle.std.specs.Prelude.{◌≡◌, ◌≤◌, ◌++◌, length, drop};
ghost use Rattle.definitions.specs.Codes.{DONE};
ghost use Rattle.record.specs.Header.{kind_in, index_in};
ghost use Rattle.forms.specs.Format.{record_of, uneven_for, coefficients_in, size_in, look_code};
ghost use Rattle.conversions.specs.Converting.{other, convert_answer, convert_leaves};
ghost use Rattle.conversions.specs.Front.{front};

use super::Converted;
use answers::Refusal;
use forms::{Form, mark_of};
use half_passes::{copy, put_other};
use reading::{look, negates_in, size_in};
use record::{byte_for, count_in, width_in};

fn other_of(form: Form) -> Form
    ensures { result ≡ other form }
{
    match form {
        Form::Whole => Form::Half,
        Form::Half => Form::Whole,
    }
}

// Are there coefficients that the other form does not take?
fn uneven_from(bytes: &[u8], from: Form) -> bool
    requires { look_code from bytes.now ≡ DONE }
    ensures { result ≡ uneven_for (other from) (kind_in bytes.now) (index_in bytes.now)
        (coefficients_in from bytes.now) }
{
    match from {
        Form::Whole => half_passes::uneven_in(
            bytes,
            width_in(bytes) as usize,
            count_in(bytes) as usize,
            negates_in(bytes),
        ),
        Form::Half => false,
    }
}

// What both forms have, the header and the first half, with the mark of the other.
fn put_front(bytes: &[u8], from: Form, out: &mut [u8])
    requires { (look_code from bytes.now ≡ DONE) × (size_in Form.Half bytes.now ≤ length out.old) }
    ensures { out.new ≡ front (other from) bytes.now ++ drop (size_in Form.Half bytes.now)
        out.old }
{
    copy(bytes, size_in(bytes, Form::Half), out);
    out[1] = mark_of(other_of(from));
}

// The half record made whole.
fn put_whole(bytes: &[u8], out: &mut [u8])
    requires { (look_code Form.Half bytes.now ≡ DONE) × (size_in Form.Whole bytes.now ≤ length out.old) }
    ensures { out.new
        ≡ record_of Form.Whole (kind_in bytes.now) (index_in bytes.now)
        (coefficients_in Form.Half bytes.now)
        ++ drop (size_in Form.Whole bytes.now) out.old }
{
    put_front(bytes, Form::Half, out);
    let w = width_in(bytes) as usize;
    let count = count_in(bytes) as usize;
    put_other(bytes, w, count, negates_in(bytes), out);
}

// The record in the other form, in bytes of which there are enough.
fn store(bytes: &[u8], from: Form, out: &mut [u8])
    requires { (look_code from bytes.now ≡ DONE) × (size_in (other from) bytes.now ≤ length out.old) }
    ensures { out.new
        ≡ record_of (other from) (kind_in bytes.now) (index_in bytes.now)
        (coefficients_in from bytes.now)
        ++ drop (size_in (other from) bytes.now) out.old }
{
    match from {
        Form::Whole => put_front(bytes, Form::Whole, out),
        Form::Half => put_whole(bytes, out),
    }
}

pub(crate) fn convert(bytes: &[u8], from: Form, out: &mut [u8]) -> Converted
    ensures answer { result ≡ convert_answer from bytes.now (length out.old) }
    ensures leaves { out.new ≡ convert_leaves from bytes.now out.old }
{
    if let Err(refusal) = look(bytes, from) {
        return Converted::refused(refusal, 0, byte_for(refusal));
    }
    let uneven = uneven_from(bytes, from);
    let written = size_in(bytes, other_of(from));
    let degree = count_in(bytes) - 1;
    if uneven {
        return Converted::refused(Refusal::Uneven, 0, 0);
    }
    if out.len() < written {
        return Converted::refused(Refusal::Short, degree, 0);
    }
    store(bytes, from, out);
    Converted {
        code: answers::DONE,
        degree,
        read: size_in(bytes, from) as u64,
        written: written as u64,
        byte: 0,
    }
}
