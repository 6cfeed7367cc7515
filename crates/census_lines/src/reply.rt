// What is printed, put into a buffer.

ghost use Rattle.std.specs.Prelude.{◌≡◌, cond, [], ◌+◌, ◌*◌, ◌≤◌, length, take, ltb};
ghost use Rattle.text.specs.Puts.{Puts};
ghost use Rattle.census_lines.specs.Printed.{SLOTS, ENTRIES, MOST as Most};
ghost use Rattle.census_lines.specs.Printed.{two_more, heading_of, row_line, row_lines, refusal, reply, printed};

use crate::MOST;
use crate::asked::{first_line_end, read_bounds};
use answers::DONE;
use text::{put, put_item, put_number, put_text};

// The end of a line.
fn put_two_more(out: &mut [u8], at: usize, x: u64, y: u64) -> usize
    requires { at + 43 ≤ length out.old }
    ensures puts { Puts (two_more x y) at out.old out.new result }
    ensures upper_bound { result ≤ at + 43 }
{
    let p = put_item(out, at, x);
    let p = put_item(out, p, y);
    put(out, p, b'\n')
}

fn put_heading(out: &mut [u8], a: u64, b: u64) -> usize
    requires { 50 ≤ length out.old }
    ensures puts { Puts (heading_of a b) 0 out.old out.new result }
    ensures upper_bound { result ≤ 50 }
{
    let p = put_text(out, 0, b"heights");
    put_two_more(out, p, a, b)
}

fn put_row(out: &mut [u8], at: usize, height: u64, smallest: u64, count: u64) -> usize
    requires { at + 63 ≤ length out.old }
    ensures puts { Puts (row_line height smallest count) at out.old out.new result }
    ensures upper_bound { result ≤ at + 63 }
{
    let p = put_number(out, at, height);
    put_two_more(out, p, smallest, count)
}

// The first so many rows.
fn put_rows(out: &mut [u8], at: usize, rows: &[u64], count: usize) -> usize
    requires { (3 * count ≤ length rows.now) × (at + 63 * count ≤ length out.old) }
    ensures puts { Puts (row_lines (take (3 * count) rows.now)) at out.old out.new result }
    ensures upper_bound { result ≤ at + 63 * count }
{
    let mut p = at;
    for i in 0..count {
        p = put_row(out, p, rows[3 * i], rows[3 * i + 1], rows[3 * i + 2]);
    }
    p
}

fn put_refusal(out: &mut [u8], code: u64) -> usize
    requires { 21 ≤ length out.old }
    ensures puts { Puts (refusal code) 0 out.old out.new result }
    ensures upper_bound { result ≤ 21 }
{
    let p = put_number(out, 0, code);
    put(out, p, b'\n')
}

// What a census answers: the heading and its rows, or its code.
fn put_reply(out: &mut [u8], a: u64, b: u64, rows: &mut [u64], work: &mut [i64]) -> usize
    requires { (length rows.old ≡ SLOTS) × (length work.old ≡ ENTRIES) × (Most ≤ length out.old) }
    ensures puts { Puts (reply a b) 0 out.old out.new result }
    ensures upper_bound { result ≤ Most }
{
    let counted = counting::census(a, b, rows, work);
    let code = counted.code;
    if code != DONE {
        return put_refusal(out, code);
    }
    let p = put_heading(out, a, b);
    put_rows(out, p, rows, counted.rows as usize)
}

// What is printed for an input, at the start of `out`, and its length; with fewer than MOST bytes lent, nothing and 0.
pub fn answer_input(input: &[u8], out: &mut [u8]) -> usize
    ensures puts { Puts (cond (ltb (length out.old) Most) [] (printed input.now)) 0 out.old
        out.new result }
    ensures upper_bound { result ≤ length out.old }
{
    if out.len() < MOST {
        return 0;
    }
    let end = first_line_end(input);
    let Some(asked) = read_bounds(&input[..end]) else {
        return put_text(out, 0, b"?\n");
    };
    let mut rows = [0u64; 192];
    let mut work = [0i64; 4096];
    put_reply(out, asked.a, asked.b, &mut rows, &mut work)
}
