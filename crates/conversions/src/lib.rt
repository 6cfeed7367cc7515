// A record of one form, converted to the other. Nothing is asked of the caller. What both forms have is copied. To the
// whole form the other half is made and put behind it; to the half form it is compared and left out.

#![tactic(auto)]

mod converter;

ghost use Rattle.std.specs.Prelude.{◌≡◌, length};
ghost use Rattle.answers.specs.Refusals.{number_of};
ghost use Rattle.conversions.specs.Converting.{convert_answer, convert_leaves};

use answers::Refusal;
use converter::convert;
use forms::Form;

// What converting answers: the code, the degree, the bytes read and written, and the byte at which a wrong field
// starts.
#[repr(C)]
#[derive(Drop)]
pub struct Converted {
    pub code: u64,
    pub degree: u64,
    pub read: u64,
    pub written: u64,
    pub byte: u64,
}

impl Converted {
    // A refusal: the degree is told with SHORT only, the byte where a field of the header is wrong.
    pub(crate) fn refused(refusal: Refusal, degree: u64, byte: u64) -> Converted
        ensures { result ≡ record { code = number_of refusal; degree = degree; read = 0; written = 0; byte = byte } }
    {
        Converted {
            code: refusal.into(),
            degree,
            read: 0,
            written: 0,
            byte,
        }
    }
}

// The record that some bytes start with, as a half record.
pub fn to_half(bytes: &[u8], out: &mut [u8]) -> Converted
    ensures answer { result ≡ convert_answer Form.Whole bytes.now (length out.old) }
    ensures leaves { out.new ≡ convert_leaves Form.Whole bytes.now out.old }
{
    convert(bytes, Form::Whole, out)
}

// The half record that some bytes start with, as a whole one.
pub fn to_whole(bytes: &[u8], out: &mut [u8]) -> Converted
    ensures answer { result ≡ convert_answer Form.Half bytes.now (length out.old) }
    ensures leaves { out.new ≡ convert_leaves Form.Half bytes.now out.old }
{
    convert(bytes, Form::Half, out)
}
