// The shelf record that has the first half of the coefficients: a writer that takes the whole polynomial and a reader
// that rebuilds it. Nothing is asked of the caller.

#![tactic(auto)]

ghost use Rattle.std.specs.Prelude.{◌≡◌, length};
ghost use Rattle.forms.specs.Format.{write_answer, write_leaves, read_answer, read_leaves};

use forms::{Form, Record, Written};

// The half record of some coefficients, in the bytes lent.
pub fn write_half(kind: u64, n: u64, coeffs: &[i64], bytes: &mut [u8]) -> Written
    ensures answer { result ≡ write_answer Form.Half kind n coeffs.now (length bytes.old) }
    ensures leaves { bytes.new ≡ write_leaves Form.Half kind n coeffs.now bytes.old }
{
    writing::write(kind, n, Form::Half, coeffs, bytes)
}

// The polynomial of the half record that some bytes start with, whole, in the entries lent.
pub fn read_half(bytes: &[u8], coeffs: &mut [i64]) -> Record
    ensures answer { result ≡ read_answer Form.Half bytes.now (length coeffs.old) }
    ensures leaves { coeffs.new ≡ read_leaves Form.Half bytes.now coeffs.old }
{
    reading::read(bytes, Form::Half, coeffs)
}
