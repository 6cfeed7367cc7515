// The coefficients of a record beside those of its kind and index, as they stand in the record's bytes.
ghost use Rattle.std.specs.Prelude.{◌≡◌, true, not, ◌||◌, ◌≢◌, ◌+◌, ◌*◌, ◌≤◌, ◌<◌, length, drop, nat_abs};
ghost use Rattle.definitions.specs.Codes.{DONE};
ghost use Rattle.definitions.specs.Steps.{entries};
ghost use Rattle.definitions.specs.Answer.{height_of};
ghost use Rattle.definitions.specs.Halves.{differ};
ghost use Rattle.widths.specs.Numbers.{top, twos, coefficients_at, widths, one_of};
ghost use Rattle.definitions.specs.Numbers.{r_of};
ghost use Rattle.index.specs.Parts.{parts_of};
ghost use Rattle.record.specs.Header.{kind_in, index_in, count_in};
ghost use Rattle.shelf.specs.Format.{look_code};
ghost use Rattle.keeping.specs.Keepable.{differ_to, another};
ghost use Rattle.keeping.specs.Trying.{Comparable, stands_in};

use first_halves::first_half;
use half_passes::{number_of, uneven_in};
use index::{Parts, take_apart};
use record::{count_in, index_in, kind_in, width_in};
use widths::least_width;
use wrapped_sums::bits_of;

// x as it stands in W bytes, which take it: its lowest ones, so that a loop has nothing wider.
fn standing<const W: usize>(x: i64) -> u64
    requires { (one_of widths W ≡ true) × (nat_abs x ≤ top W) }
    ensures { result ≡ twos W x }
{
    let b = bits_of(x);
    match W {
        1 => b % 256,
        2 => b % 65536,
        4 => b % 4294967296,
        _ => b,
    }
}

// Is entry i of the coefficients another than that after the header?
fn unlike<const W: usize>(bytes: &[u8], coeffs: &[i64], i: usize) -> bool
    requires { (one_of widths W ≡ true) × (10 + length coeffs.now * W ≤ length bytes.now)
        × (height_of coeffs.now ≤ top W) × (i < length coeffs.now) }
    ensures { result ≡ differ (entries (coefficients_at W (length coeffs.now) (drop 10 bytes.now)) i)
        (entries coeffs.now i) }
{
    let entry = coeffs[i];
    standing::<W>(entry) != number_of(bytes, W, coeffs.len(), i)
}

// Is one from a place up to another? The loop goes on when it has found one: where its length is known, one that can't
// stop is made one of vectors.
fn differ_some<const W: usize>(bytes: &[u8], coeffs: &[i64], from: usize, to: usize) -> bool
    requires { (one_of widths W ≡ true) × (10 + length coeffs.now * W ≤ length bytes.now)
        × (height_of coeffs.now ≤ top W) × (from ≤ to) × (to ≤ length coeffs.now) }
    ensures { (differ_to from (coefficients_at W (length coeffs.now) (drop 10 bytes.now))
        coeffs.now || result)
        ≡ differ_to to (coefficients_at W (length coeffs.now) (drop 10 bytes.now))
        coeffs.now }
{
    let mut found = false;
    for i in from..to {
        found |= unlike::<W>(bytes, coeffs, i);
    }
    found
}

// Is one of all? By sixteens, and then what they leave; a sixteen that has one ends it.
fn differ_at<const W: usize>(bytes: &[u8], coeffs: &[i64]) -> bool
    requires { (one_of widths W ≡ true) × (10 + length coeffs.now * W ≤ length bytes.now)
        × (height_of coeffs.now ≤ top W) }
    ensures { result ≡ differ_to (length coeffs.now)
        (coefficients_at W (length coeffs.now) (drop 10 bytes.now)) coeffs.now }
{
    let sixteens = coeffs.len() / 16;
    for i in 0..sixteens {
        if differ_some::<W>(bytes, coeffs, 16 * i, 16 * i + 16) {
            return true;
        }
    }
    differ_some::<W>(bytes, coeffs, 16 * sixteens, coeffs.len())
}

// The same, with a loop of its own for each width.
fn differ_in(bytes: &[u8], w: usize, coeffs: &[i64]) -> bool
    requires { (one_of widths w ≡ true) × (10 + length coeffs.now * w ≤ length bytes.now)
        × (height_of coeffs.now ≤ top w) }
    ensures { result ≡ differ_to (length coeffs.now)
        (coefficients_at w (length coeffs.now) (drop 10 bytes.now)) coeffs.now }
{
    match w {
        1 => differ_at::<1>(bytes, coeffs),
        2 => differ_at::<2>(bytes, coeffs),
        4 => differ_at::<4>(bytes, coeffs),
        _ => differ_at::<8>(bytes, coeffs),
    }
}

// Do coefficients that were made, the first of those of its kind and index, stand in a record? Only where their height
// asks for its width are they compared.
fn stands_in(bytes: &[u8], height: u64, made: &[i64]) -> bool
    requires read { look_code bytes.now ≡ DONE }
    requires fits { Comparable bytes.now height made.now }
    ensures { result ≡ stands_in bytes.now height made.now }
{
    let w = width_in(bytes) as usize;
    least_width(height) == w && !differ_in(bytes, w, made)
}

// Does a record that reads well have the coefficients of its kind and index? They are made, and where they have its
// width compared.
fn has_whole(bytes: &[u8], coeffs: &mut [i64]) -> bool
    requires { (look_code bytes.now ≡ DONE) × (count_in bytes.now ≤ length coeffs.old) }
    ensures value { result ≡ not (another bytes.now) }
    ensures coeffs_len_unchanged { length coeffs.new ≡ length coeffs.old }
{
    let made = polynomial::polynomial(kind_in(bytes), index_in(bytes), i64::MAX, i64::MAX, coeffs);
    let count = count_in(bytes) as usize;
    stands_in(bytes, made.height, &coeffs[..count])
}

// The same of F(n), n with an odd prime: its first half is made and compared, and then the record's halves with each
// other.
fn has_half(bytes: &[u8], parts: Parts, coeffs: &mut [i64]) -> bool
    requires { (look_code bytes.now ≡ DONE) × (count_in bytes.now ≤ length coeffs.old)
        × (kind_in bytes.now ≡ 1) × (parts ≡ parts_of (index_in bytes.now)) × (r_of (index_in bytes.now) ≢ 1) }
    ensures value { result ≡ not (another bytes.now) }
    ensures coeffs_len_unchanged { length coeffs.new ≡ length coeffs.old }
{
    let count = count_in(bytes) as usize;
    let half = (count + 1) / 2;
    let height = first_half(index_in(bytes), parts, &mut coeffs[..half]);
    stands_in(bytes, height, &coeffs[..half])
        && !uneven_in(bytes, width_in(bytes) as usize, count, false)
}

pub(crate) fn is_same(bytes: &[u8], coeffs: &mut [i64]) -> bool
    requires { (look_code bytes.now ≡ DONE) × (count_in bytes.now ≤ length coeffs.old) }
    ensures value { result ≡ not (another bytes.now) }
    ensures coeffs_len_unchanged { length coeffs.new ≡ length coeffs.old }
{
    if kind_in(bytes) != 1 {
        return has_whole(bytes, coeffs);
    }
    let parts = take_apart(index_in(bytes));
    if parts.r == 1 {
        return has_whole(bytes, coeffs);
    }
    has_half(bytes, parts, coeffs)
}
