// An inner crate: the door of the library that gives the response at a point, asked for the program `trial`, and its
// answer told (second/README.md has the form). Nothing is promised but that each function is safe and ends: what is
// told is held to a stored output.

#![tactic(auto)]

use response::Point;
use std::fmt;
use std::fmt::Write;
use trial_output::Console;

// The name of the request, as `trial_lines::name` reads it.
const RESPONSE: u64 = 624498817637;

// The float that 64 bits stand for; of those that stand for no number one is made.
fn float(bits: u64) -> f64 {
    if 9218868437227405312 < bits % 9223372036854775808 {
        return 0.0 / 0.0;
    }
    f64::from_bits(bits)
}

// The bits of a float. Those of what is not a number are not promised, so some are told.
fn pattern(x: f64) -> u64 {
    if x != x {
        return 9221120237041090560;
    }
    f64::to_bits(x)
}

// A request by its name; tells whether it is this one.
pub fn ask(
    to: &mut Console,
    name: u64,
    asked: [u64; 4],
    entries: &[i64],
) -> Result<bool, fmt::Error> {
    if name != RESPONSE {
        return Ok(false);
    }
    let at = Point {
        real: float(asked[0]),
        imag: float(asked[1]),
    };
    let a = bonvedrick::bv_response(entries, at);
    writeln!(to, "{} {} {}", a.code, pattern(a.real), pattern(a.imag))?;
    Ok(true)
}
