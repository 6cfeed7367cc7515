// The rescue of a damaged shelf. Nothing is asked of the caller. Where the rooms are so large that SHORT can't be met,
// one pass finds and writes; else a pass counts first, and nothing is written where it says SHORT.

#![tactic(auto)]

mod passes;

ghost use Rattle.std.specs.Prelude.{◌≡◌, length};
ghost use Rattle.rescuing.specs.Rescue.{rescue_answer, rescue_leaves, rescue_lists, rescue_clears};

use answers::Refusal;
use passes::{is_short, write_all};

// What a rescue answers: the code, the bytes kept, and how many stretches are skipped.
#[repr(C)]
#[derive(Drop)]
pub struct Rescued {
    pub code: u64,
    pub kept: u64,
    pub stretches: u64,
}

// The records of a damaged shelf that can be kept, in `out`; what is skipped, by start and length, in `list`. The room
// for coefficients is scratch, and is all zero afterwards.
pub fn rescue(shelf: &[u8], out: &mut [u8], list: &mut [u64], coeffs: &mut [i64]) -> Rescued
    ensures answer { result
        ≡ rescue_answer shelf.now (length out.old) (length list.old)
        (length coeffs.old) }
    ensures leaves { out.new
        ≡ rescue_leaves shelf.now out.old (length list.old)
        (length coeffs.old) }
    ensures lists { list.new
        ≡ rescue_lists shelf.now (length out.old) list.old
        (length coeffs.old) }
    ensures clears { coeffs.new ≡ rescue_clears coeffs.old }
{
    if is_short(shelf, out.len(), list.len(), coeffs) {
        shapes::clear(coeffs);
        return Rescued {
            code: u64::from(Refusal::Short),
            kept: 0,
            stretches: 0,
        };
    }
    let written = write_all(shelf, out, list, coeffs);
    shapes::clear(coeffs);
    Rescued {
        code: answers::DONE,
        kept: written.kept as u64,
        stretches: (written.slots / 2) as u64,
    }
}
