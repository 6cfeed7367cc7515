// The requests of the library for C, Rust and Python (include/bonvedrick.h). Each function is its request under a plain
// name: nothing is asked of the caller, and the contract is that of the request. Its answer is laid out as C's struct.
// The crate bonvedrick_c hands each of them to C under the same name.

#![tactic(auto)]

ghost use Rattle.std.specs.Prelude.{◌≡◌, length};
ghost use Rattle.definitions.specs.Steps.{comb, accumulate, step_code, step_count, step_leaves};
ghost use Rattle.answers.specs.Polynomial as Polynomial;
ghost use Rattle.answers.specs.Partial as Partial;
ghost use Rattle.answers.specs.Cascade as Cascade;
ghost use Rattle.answers.specs.Second as Second;
ghost use Rattle.forms.specs.Format as Forms;
ghost use Rattle.shelf.specs.Format.{write_answer, write_leaves, read_answer, read_leaves};
ghost use Rattle.conversions.specs.Converting.{convert_answer, convert_leaves};
ghost use Rattle.browsing.specs.Browse.{shown_at, told};
ghost use Rattle.shelves.specs.Lookup.{found};
ghost use Rattle.rescuing.specs.Rescue.{rescue_answer, rescue_leaves, rescue_lists, rescue_clears};
ghost use Rattle.response.specs.Response as Response;
ghost use Rattle.counting.specs.Census as Census;

use answers::{Answer, Stop};
use browsing::Browsed;
use conversions::Converted;
use counting::Counted;
use forms::{Form, Record, Written};
use rescuing::Rescued;
use response::{Point, Value};
use shelves::Found;
use steps::{Sort, Step, Stepped};

// The polynomial of a kind and an index, no taller than h and made of steps within w.
pub fn bv_polynomial(kind: u64, n: u64, h: i64, w: i64, buf: &mut [i64]) -> Answer
    ensures answer { result ≡ Polynomial.answer kind n h w (length buf.old) }
    ensures leaves { buf.new ≡ Polynomial.leaves kind n h w buf.old }
{
    polynomial::polynomial(kind, n, h, w, buf)
}

// The kept half for n's r after the first j divisors' steps, all within w.
pub fn bv_partial(kind: u64, n: u64, j: u64, w: i64, buf: &mut [i64]) -> Stop
    ensures answer { result ≡ Partial.answer kind n j w (length buf.old) }
    ensures leaves { buf.new ≡ Partial.leaves kind n j w buf.old }
{
    partial::partial(kind, n, j, w, buf)
}

// The product of F(n) for the n of a list, no taller than h; the scratch is lent for the factors.
pub fn bv_cascade(indices: &[u64], h: i64, buf: &mut [i64], scratch: &mut [i64]) -> Answer
    ensures answer { result
        ≡ Cascade.answer indices.now h (length buf.old) (length scratch.old) }
    ensures leaves { buf.new
        ≡ Cascade.leaves indices.now h buf.old (length scratch.old) }
    ensures scratches { scratch.new
        ≡ Cascade.scratches indices.now h (length buf.old) scratch.old }
{
    cascade::cascade(indices, h, buf, scratch)
}

// The polynomial of a kind and an index by the second engine, no taller than h; the scratch is lent for the road.
pub fn bv_second(kind: u64, n: u64, h: i64, buf: &mut [i64], scratch: &mut [i64]) -> Answer
    ensures answer { result ≡ Second.answer kind n h (length buf.old) (length scratch.old) }
    ensures leaves { buf.new ≡ Second.leaves kind n h buf.old (length scratch.old) }
    ensures scratches { scratch.new ≡ Second.scratches kind n h (length buf.old) scratch.old }
{
    second::second(kind, n, h, buf, scratch)
}

// A comb on its own, within w.
// Stays apart from `bv_accumulate`: C calls each by its name.
pub fn bv_comb(size: u64, w: i64, buf: &mut [i64]) -> Stepped
    ensures code { result.code ≡ step_code w comb size buf.old }
    ensures count { result.count ≡ step_count w comb size buf.old }
    ensures leaves { buf.new ≡ step_leaves w comb size buf.old }
{
    let comb = Step {
        sort: Sort::Comb,
        size,
    };
    comb.apply(w, buf)
}

// An accumulate on its own, within w.
pub fn bv_accumulate(size: u64, w: i64, buf: &mut [i64]) -> Stepped
    ensures code { result.code ≡ step_code w accumulate size buf.old }
    ensures count { result.count ≡ step_count w accumulate size buf.old }
    ensures leaves { buf.new ≡ step_leaves w accumulate size buf.old }
{
    let accumulate = Step {
        sort: Sort::Accumulate,
        size,
    };
    accumulate.apply(w, buf)
}

// The record of some coefficients, in the bytes lent.
pub fn bv_write(kind: u64, n: u64, coeffs: &[i64], bytes: &mut [u8]) -> Written
    ensures answer { result ≡ write_answer kind n coeffs.now (length bytes.old) }
    ensures leaves { bytes.new ≡ write_leaves kind n coeffs.now bytes.old }
{
    shelf::write(kind, n, coeffs, bytes)
}

// The coefficients of the record that some bytes start with, in the entries lent.
pub fn bv_read(bytes: &[u8], coeffs: &mut [i64]) -> Record
    ensures answer { result ≡ read_answer bytes.now (length coeffs.old) }
    ensures leaves { coeffs.new ≡ read_leaves bytes.now coeffs.old }
{
    shelf::read(bytes, coeffs)
}

// The half record of some coefficients, in the bytes lent.
pub fn bv_write_half(kind: u64, n: u64, coeffs: &[i64], bytes: &mut [u8]) -> Written
    ensures answer { result ≡ Forms.write_answer Form.Half kind n coeffs.now (length bytes.old) }
    ensures leaves { bytes.new ≡ Forms.write_leaves Form.Half kind n coeffs.now bytes.old }
{
    half_records::write_half(kind, n, coeffs, bytes)
}

// The polynomial of the half record that some bytes start with, whole, in the entries lent.
pub fn bv_read_half(bytes: &[u8], coeffs: &mut [i64]) -> Record
    ensures answer { result ≡ Forms.read_answer Form.Half bytes.now (length coeffs.old) }
    ensures leaves { coeffs.new ≡ Forms.read_leaves Form.Half bytes.now coeffs.old }
{
    half_records::read_half(bytes, coeffs)
}

// The record that some bytes start with, as a half record.
pub fn bv_to_half(bytes: &[u8], out: &mut [u8]) -> Converted
    ensures answer { result ≡ convert_answer Form.Whole bytes.now (length out.old) }
    ensures leaves { out.new ≡ convert_leaves Form.Whole bytes.now out.old }
{
    conversions::to_half(bytes, out)
}

// The half record that some bytes start with, as a whole one.
pub fn bv_to_whole(bytes: &[u8], out: &mut [u8]) -> Converted
    ensures answer { result ≡ convert_answer Form.Half bytes.now (length out.old) }
    ensures leaves { out.new ≡ convert_leaves Form.Half bytes.now out.old }
{
    conversions::to_whole(bytes, out)
}

// The record of a kind and an index in two shelves, the own one first: where it stands.
pub fn bv_lookup(kind: u64, n: u64, own: &[u8], house: &[u8]) -> Found
    ensures { result ≡ found kind n own.now house.now }
{
    shelves::find(kind, n, own, house)
}

// What stands at a place of a shelf: a record, a refusal or the end.
pub fn bv_browse(shelf: &[u8], at: u64) -> Browsed
    ensures { result ≡ told (shown_at shelf.now at) }
{
    browsing::browse(shelf, at)
}

// The records of a damaged shelf that can be kept, and what is skipped; the coefficient room is lent as scratch.
pub fn bv_rescue(shelf: &[u8], out: &mut [u8], list: &mut [u64], coeffs: &mut [i64]) -> Rescued
    ensures answer { result
        ≡ rescue_answer shelf.now (length out.old) (length list.old)
        (length coeffs.old) }
    ensures leaves { out.new
        ≡ rescue_leaves shelf.now out.old (length list.old)
        (length coeffs.old) }
    ensures lists { list.new
        ≡ rescue_lists shelf.now (length out.old) list.old
        (length coeffs.old) }
    ensures clears { coeffs.new ≡ rescue_clears coeffs.old }
{
    rescuing::rescue(shelf, out, list, coeffs)
}

// The value of some coefficients at a point, from the highest down, each operation rounded once.
pub fn bv_response(coeffs: &[i64], at: Point) -> Value
    ensures { result ≡ Response.answer coeffs.now at }
{
    response::response(coeffs, at)
}

// For each height among F(a) to F(b) its row: the height, the smallest index and how many have it; the working entries
// are lent as scratch.
pub fn bv_census(a: u64, b: u64, rows: &mut [u64], work: &mut [i64]) -> Counted
    ensures answer { result ≡ Census.answer a b (length rows.old) (length work.old) }
    ensures leaves { rows.new ≡ Census.leaves a b rows.old (length work.old) }
    ensures clears { work.new ≡ Census.clears a b (length rows.old) work.old }
{
    counting::census(a, b, rows, work)
}
