// The shelf record that has every coefficient: a writer and a reader that agree to the byte. Nothing is asked of the
// caller. `size_in` is inner: the crate `browsing` uses it, and shows the `requires`.

#![tactic(auto)]

ghost use Rattle.std.specs.Prelude.{◌≡◌, length};
ghost use Rattle.definitions.specs.Codes.{DONE};
ghost use Rattle.record.specs.Header.{header_code};
ghost use Rattle.shelf.specs.Format.{write_answer, write_leaves, read_answer, read_leaves, look_code};
ghost use Rattle.shelf.specs.Format.{size_in, whole_mark};

use forms::{Form, Record, Written};

// The record of some coefficients, in the bytes lent.
pub fn write(kind: u64, n: u64, coeffs: &[i64], bytes: &mut [u8]) -> Written
    ensures answer { result ≡ write_answer kind n coeffs.now (length bytes.old) }
    ensures leaves { bytes.new ≡ write_leaves kind n coeffs.now bytes.old }
{
    writing::write(kind, n, Form::Whole, coeffs, bytes)
}

// The coefficients of the record that some bytes start with, in the entries lent.
pub fn read(bytes: &[u8], coeffs: &mut [i64]) -> Record
    ensures answer { result ≡ read_answer bytes.now (length coeffs.old) }
    ensures leaves { coeffs.new ≡ read_leaves bytes.now coeffs.old }
{
    reading::read(bytes, Form::Whole, coeffs)
}

// The code of the record that some bytes start with, by every test of the reader but that of the room. Nothing is
// stored.
pub fn look(bytes: &[u8]) -> u64
    ensures { result ≡ look_code bytes.now }
{
    match reading::look(bytes, Form::Whole) {
        Ok(()) => answers::DONE,
        Err(refusal) => refusal.into(),
    }
}

// The bytes of a record with a right header.
pub fn size_in(bytes: &[u8]) -> usize
    requires { header_code whole_mark bytes.now ≡ DONE }
    ensures { result ≡ size_in bytes.now }
{
    reading::size_in(bytes, Form::Whole)
}
