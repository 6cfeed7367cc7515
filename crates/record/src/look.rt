// The look at the coefficients of a record: is its width the right one? Nothing is stored.
ghost use Rattle.std.specs.Prelude.{◌≡◌, ◌+◌, ◌*◌, ◌≤◌, true, eqb, length, drop};
ghost use Rattle.definitions.specs.Answer.{height_of};
ghost use Rattle.widths.specs.Numbers.{coefficients_at, widths, one_of, width};
ghost use Rattle.widths.specs.Classes.{class};

use super::body::Body;

// The class of the height of the k coefficients after the header, with a loop of its own for each width.
fn class_at_width(bytes: &[u8], w: usize, k: usize) -> u8
    requires { (one_of widths w ≡ true) × (10 + k * w ≤ length bytes.now) }
    ensures { result ≡ class w (height_of (coefficients_at w k (drop 10 bytes.now))) }
{
    match w {
        1 => Body::<1>::new(bytes, k).class(),
        2 => Body::<2>::new(bytes, k).class(),
        4 => Body::<4>::new(bytes, k).class(),
        _ => Body::<8>::new(bytes, k).class(),
    }
}

// Is w the width of the k coefficients after the header?
pub fn right_width(bytes: &[u8], w: usize, k: usize) -> bool
    requires { (one_of widths w ≡ true) × (10 + k * w ≤ length bytes.now) }
    ensures { result ≡ eqb (width (coefficients_at w k (drop 10 bytes.now))) w }
{
    let all = class_at_width(bytes, w, k);
    if w == 1 {
        return all != 3;
    }
    all == 1
}
