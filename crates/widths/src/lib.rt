// Inner: nothing here is offered to callers; each `requires` is shown by `record`. How a record holds a number: the
// leaves of the writer and the reader.

#![tactic(auto)]

ghost use Rattle.std.specs.Prelude.{◌≡◌, ◌*◌, ◌<◌, ◌≤◌, ◌^◌, cond, true, pos, negsuc, nat_abs};
ghost use Rattle.widths.specs.Numbers.{top, twos, signed_of, widths, one_of, least_of};
ghost use Rattle.widths.specs.Classes.{lesser, class};

// -(m + 1) or m.
fn whole_of(below: bool, m: u64) -> i64
    requires { m < 2 ^ 63 }
    ensures { result ≡ cond below (negsuc m) (pos m) }
{
    if below { !(m as i64) } else { m as i64 }
}

// The largest height that w bytes take.
fn top_of(w: usize) -> u64
    requires { (0 < w) × (w ≤ 8) }
    ensures { result ≡ top w }
{
    (1u64 << (8 * w - 1)) - 1
}

// Two's complement of x in w bytes, which take it.
pub fn twos_of(x: i64, w: usize) -> u64
    requires { (0 < w) × (w ≤ 8) × (nat_abs x ≤ top w) }
    ensures { result ≡ twos w x }
{
    let most = top_of(w);
    if x < 0 {
        most - (!x as u64) + most + 1
    } else {
        x as u64
    }
}

// The number that v stands for in w bytes.
pub fn signed_of(v: u64, w: usize) -> i64
    requires { (0 < w) × (w ≤ 8) × (v < 2 ^ (8 * w)) }
    ensures { result ≡ signed_of w v }
{
    let most = top_of(w);
    if v <= most {
        whole_of(false, v)
    } else {
        whole_of(true, most - (v - most - 1))
    }
}

// The largest height that half as many bytes take.
fn lesser_top(w: usize) -> u64
    requires { one_of widths w ≡ true }
    ensures { result ≡ lesser w }
{
    match w {
        1 => 0,
        2 => 127,
        4 => 32767,
        _ => 2147483647,
    }
}

// What the number that v stands for in w bytes says of the width. A byte, so that a loop over the coefficients has
// sixteen of them in a vector; and tests on v itself, so that nothing is wider than w bytes.
pub fn class_of(v: u64, w: usize) -> u8
    requires { (one_of widths w ≡ true) × (v < 2 ^ (8 * w)) }
    ensures { result ≡ class w (nat_abs (signed_of w v)) }
{
    let most = top_of(w);
    let less = lesser_top(w);
    if v == most + 1 {
        return 3;
    }
    if v <= less {
        return 0;
    }
    if most + most + 1 - v < less {
        return 0;
    }
    1
}

// The least width that takes a height; 0 where none does.
pub fn least_width(h: u64) -> usize
    ensures { result ≡ least_of widths h }
{
    if h <= 127 {
        1
    } else if h <= 32767 {
        2
    } else if h <= 2147483647 {
        4
    } else if h <= 9223372036854775807 {
        8
    } else {
        0
    }
}

pub fn is_width(w: u64) -> bool
    ensures { result ≡ one_of widths w }
{
    if w == 1 {
        return true;
    }
    if w == 2 {
        return true;
    }
    w == 4 || w == 8
}
