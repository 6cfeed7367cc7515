// Inner: each `requires` is shown by `listing`, which sees to the room. The text of an answer, and of a
// line that is not good.

#![tactic(auto)]

ghost use Rattle.std.specs.Prelude.{◌≡◌, [], ◌∷◌, ◌+◌, ◌*◌, ◌≤◌, ◌<◌, length, take, pos};
ghost use Rattle.text.specs.Text.{spaced};
ghost use Rattle.text.specs.Puts.{Puts};
ghost use Rattle.answer_lines.specs.Printed.{letter_of, head_of, tail_of, wrong_line};

use answers::{Answer, DONE};
use text::{put, put_coefficients, put_item, put_signed};

fn letter_of(kind: u64) -> u8
    ensures { result ≡ letter_of kind }
{
    if kind == 1 { b'F' } else { b'I' }
}

fn put_three(out: &mut [u8], at: usize, x: u64, y: u64, z: u64) -> usize
    requires { at + 63 ≤ length out.old }
    ensures puts { Puts (spaced (pos x ∷ pos y ∷ pos z ∷ [])) at out.old out.new result }
    ensures upper_bound { result ≤ at + 63 }
{
    let p = put_item(out, at, x);
    let q = put_item(out, p, y);
    put_item(out, q, z)
}

// The letter, the seven numbers and the colon.
pub fn put_head(out: &mut [u8], at: usize, kind: u64, n: u64, a: Answer) -> usize
    requires { at + 151 ≤ length out.old }
    ensures puts { Puts (head_of kind n a) at out.old out.new result }
    ensures upper_bound { result ≤ at + 151 }
{
    let p = put(out, at, letter_of(kind));
    let p = put_three(out, p, n, a.code, a.degree);
    let p = put_three(out, p, a.additions, a.height, a.peak);
    let p = put_signed(out, p, a.gain);
    let p = put(out, p, b' ');
    put(out, p, b':')
}

// On code 0 the coefficients, which are the entries up to the degree.
pub fn put_tail(out: &mut [u8], at: usize, a: Answer, entries: &[i64]) -> usize
    requires entries_in_bounds { at + 22 * length entries.now < length out.old }
    requires degree_in_bounds { a.code ≡ 0 → a.degree < length entries.now }
    ensures puts { Puts (tail_of a (take (a.degree + 1) entries.now)) at out.old out.new result }
    ensures upper_bound { result ≤ at + 22 * length entries.now + 1 }
{
    let code = a.code;
    if code == DONE {
        let count = a.degree as usize + 1;
        let p = put_coefficients(out, at, entries, count);
        return put(out, p, b'\n');
    }
    put(out, at, b'\n')
}

// What is printed for a line that is not good.
pub fn put_wrong(out: &mut [u8], at: usize, number: u64) -> usize
    requires { at + 23 ≤ length out.old }
    ensures puts { Puts (wrong_line number) at out.old out.new result }
    ensures upper_bound { result ≤ at + 23 }
{
    let p = put(out, at, b'?');
    let p = put_item(out, p, number);
    put(out, p, b'\n')
}
