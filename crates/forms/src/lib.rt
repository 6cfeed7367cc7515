// Inner: each `requires` is shown by crates above. The stored record in both its forms, and what its writer and its
// reader answer. One code (`writing`, `reading`) and one proof for both: the form is a parameter.

#![tactic(auto)]

ghost use Rattle.std.specs.Prelude.{◌≡◌, ◌≤◌};
ghost use Rattle.answers.specs.Refusals.{number_of};
ghost use Rattle.forms.specs.Format.{mark, stored};

use answers::Refusal;

// Every coefficient, or the first half of them.
#[derive(Clone, Copy)]
pub enum Form {
    Whole,
    Half,
}

// The second byte of the mark.
pub fn mark_of(form: Form) -> u8
    ensures { result ≡ mark form }
{
    match form {
        Form::Whole => 0x50,
        Form::Half => 0x51,
    }
}

// How many of so many coefficients are stored.
pub fn stored_of(form: Form, count: usize) -> usize
    requires { count ≤ 65536 }
    ensures { (result ≡ stored form count) × (result ≤ count) }
{
    match form {
        Form::Whole => count,
        Form::Half => (count + 1) / 2,
    }
}

// What the writer answers: the code, the degree, the bytes used, and the byte at which a wrong field starts.
#[repr(C)]
#[derive(Drop)]
pub struct Written {
    pub code: u64,
    pub degree: u64,
    pub used: u64,
    pub byte: u64,
}

impl Written {
    // A refusal: the degree is told with OVER and SHORT only, the byte with RCOUNT only.
    pub fn refused(code: u64, degree: u64, byte: u64) -> Written
        ensures { result ≡ record { code = code; degree = degree; used = 0; byte = byte } }
    {
        Written {
            code,
            degree,
            used: 0,
            byte,
        }
    }

    // The same by its name.
    pub fn of(refusal: Refusal, degree: u64, byte: u64) -> Written
        ensures { result ≡ record { code = number_of refusal; degree = degree; used = 0; byte = byte } }
    {
        Written::refused(u64::from(refusal), degree, byte)
    }
}

// What the reader answers: the code, the degree, the bytes used, the kind and the index of the record, and the byte at
// which a wrong field starts.
#[repr(C)]
#[derive(Drop)]
pub struct Record {
    pub code: u64,
    pub degree: u64,
    pub used: u64,
    pub kind: u64,
    pub n: u64,
    pub byte: u64,
}

impl Record {
    // A refusal: the degree is told with SHORT only, the byte where a field of the header is wrong.
    pub fn refused(code: u64, degree: u64, byte: u64) -> Record
        ensures { result ≡ record { code = code; degree = degree; used = 0; kind = 0; n = 0; byte = byte } }
    {
        Record {
            code,
            degree,
            used: 0,
            kind: 0,
            n: 0,
            byte,
        }
    }

    // The same by its name.
    pub fn of(refusal: Refusal, degree: u64, byte: u64) -> Record
        ensures { result ≡ record { code = number_of refusal; degree = degree; used = 0; kind = 0; n = 0; byte = byte } }
    {
        Record::refused(u64::from(refusal), degree, byte)
    }
}
