// The response at a point (docs/RULES.md, 'The response at a point'): some coefficients at a point of the plane, from
// the highest down, each operation rounded once. A product is never joined to a sum: nothing here asks for that, and
// the contract is the sequence itself.

#![tactic(auto)]

ghost use Rattle.std.specs.Prelude.{◌≡◌, false};
ghost use Rattle.answers.specs.Refusals.{number_of};
ghost use Rattle.response.specs.Response.{0ᶠ, is_within, is_inside, is_coarse, next_at, answer};

use answers::Refusal;

// A point, and a running value, by its real and its imaginary part.
#[repr(C)]
#[derive(Clone, Copy)]
pub struct Point {
    pub real: f64,
    pub imag: f64,
}

// A response: the code, and the value's two parts.
#[repr(C)]
#[derive(Drop)]
pub struct Value {
    pub code: u64,
    pub real: f64,
    pub imag: f64,
}

// Is a part of a point from -1 to 1? What is not a number is not.
fn within(x: f64) -> bool
    ensures { result ≡ is_within x }
{
    -1.0 <= x && x <= 1.0
}

// Are both?
fn inside(at: Point) -> bool
    ensures { result ≡ is_inside at }
{
    within(at.real) && within(at.imag)
}

// Is a coefficient's magnitude above 2^53?
fn coarse(c: i64) -> bool
    ensures { result ≡ is_coarse c }
{
    c < -9007199254740992 || 9007199254740992 < c
}

// A refusal: its code, and 0 and 0.
fn refused(refusal: Refusal) -> Value
    ensures { result ≡ record { code = number_of refusal; real = 0ᶠ; imag = 0ᶠ } }
{
    Value {
        code: refusal.into(),
        real: 0.0,
        imag: 0.0,
    }
}

// The value so far times the point, and one coefficient more.
fn next(running: Point, at: Point, c: i64) -> Point
    requires { is_coarse c ≡ false }
    ensures { result ≡ next_at running at c }
{
    let real = running.real;
    let imag = running.imag;
    let x = at.real;
    let y = at.imag;
    let coefficient = c as f64;
    let new_real = (real * x - imag * y) + coefficient;
    let new_imag = real * y + imag * x;
    Point {
        real: new_real,
        imag: new_imag,
    }
}

// The value of some coefficients, lowest first, at a point. One pass: a coefficient is tested where it is taken.
pub fn response(coeffs: &[i64], at: Point) -> Value
    ensures { result ≡ answer coeffs.now at }
{
    if !inside(at) {
        return refused(Refusal::Point);
    }
    let zero = 0.0;
    let mut running = Point {
        real: zero,
        imag: zero,
    };
    for i in (0..coeffs.len()).rev() {
        let c = coeffs[i];
        if coarse(c) {
            return refused(Refusal::Coarse);
        }
        running = next(running, at, c);
    }
    Value {
        code: answers::DONE,
        real: running.real,
        imag: running.imag,
    }
}
