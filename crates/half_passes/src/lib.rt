// Inner: each `requires` is shown by `forms` and `conversions`. The passes over the halves of some coefficients: do
// they match, in a slice and in the bytes of a record; and, from one form of a record to the other, the bytes that both
// have, and the other half.

#![tactic(auto)]

ghost use Rattle.std.specs.Prelude.{◌≡◌, ℕ, ◌+◌, ◌-◌, ◌*◌, ◌^◌, ◌<◌, ◌≤◌, Bool, true, length, take, drop};
ghost use Rattle.std.proofs.lemmas.List.Edits.{sets};
ghost use Rattle.definitions.specs.Answer.{height_of};
ghost use Rattle.definitions.specs.Steps.{entries, largest};
ghost use Rattle.half_passes.specs.Any.{any_to, other_at};
ghost use Rattle.definitions.specs.Halves.{half_of, image, differ, uneven, rebuilt};
ghost use Rattle.widths.specs.Numbers.{top, twos, signed_of, body, coefficients_at, widths, one_of};

use record::{Body, get, put};
use widths::twos_of;

// The image of what v stands for in W bytes, as it stands there itself. The loops below compare and store such numbers
// and no signed ones: nothing is wider than W bytes, and the loop is made one of vectors.
fn image_of<const W: usize>(v: u64, negate: bool) -> u64
    requires { (one_of widths W ≡ true) × (v < 2 ^ (8 * W)) }
    ensures { result ≡ twos W (image negate (signed_of W v)) }
{
    if !negate {
        return v;
    }
    let m = v.wrapping_neg();
    match W {
        1 => m % 256,
        2 => m % 65536,
        4 => m % 4294967296,
        _ => m,
    }
}

// Entry i of the k after the header, as it stands there.
pub fn number_of(bytes: &[u8], w: usize, k: usize, i: usize) -> u64
    requires { (one_of widths w ≡ true) × (10 + k * w ≤ length bytes.now) × (i < k) }
    ensures { (signed_of w result ≡ entries (coefficients_at w k (drop 10 bytes.now)) i)
        × (result < 2 ^ (8 * w)) }
{
    get(bytes, 10 + i * w, w)
}

// Does entry i of a slice have another than its image at the place that mirrors it? Each as it would stand in 8 bytes.
fn unlike(coeffs: &[i64], i: usize, negate: bool) -> bool
    requires { (height_of coeffs.now ≤ largest) × (i < length coeffs.now) }
    ensures { result
        ≡ differ (entries coeffs.now (length coeffs.now - 1 - i))
        (image negate (entries coeffs.now i)) }
{
    let other = twos_of(coeffs[coeffs.len() - 1 - i], 8);
    image_of::<8>(twos_of(coeffs[i], 8), negate) != other
}

// The same of the coefficients of a record.
fn unlike_in<const W: usize>(body: &Body<W>, i: usize, negate: bool) -> bool
    requires { (height_of body.now ≤ top W) × (i < length body.now) }
    ensures { result ≡ other_at negate body.now (length body.now) i }
{
    let other = body.number(body.len() - 1 - i);
    image_of::<W>(body.number(i), negate) != other
}

// Is something so at one of the places below `count`? The loop goes on when it has found one: one that can stop is not
// made one of vectors.
fn any_below<F: Fn(usize) -> bool>(count: usize, is_so: F) -> bool
    requires { (i : ℕ) → i < count → F.pre is_so i }
    ensures { (p : ℕ → Bool) → ((i : ℕ) (r : Bool) → i < count → F.post is_so i r → r ≡ p i) → result ≡ any_to p count }
{
    let mut found = false;
    for i in 0..count {
        found |= is_so(i);
    }
    found
}

// Are there coefficients whose halves don't match? All of a slice.
pub fn uneven(coeffs: &[i64], negate: bool) -> bool
    requires { height_of coeffs.now ≤ largest }
    ensures { result ≡ uneven negate coeffs.now }
{
    any_below(
        coeffs.len() - coeffs.len() / 2,
        |i| unlike(coeffs, i, negate),
    )
}

// All of a record.
fn uneven_at<const W: usize>(body: &Body<W>, negate: bool) -> bool
    requires { height_of body.now ≤ top W }
    ensures { result ≡ uneven negate body.now }
{
    any_below(
        body.len() - body.len() / 2,
        |i: usize| -> bool
            requires { (height_of body.now ≤ top W) × (i < length body.now) }
            ensures { result ≡ other_at negate body.entry.now (length body.entry.now) i }
        { unlike_in(body, i, negate) },
    )
}

// The k coefficients after the header of a record, with a loop of its own for each width.
pub fn uneven_in(bytes: &[u8], w: usize, k: usize, negate: bool) -> bool
    requires { (one_of widths w ≡ true) × (10 + k * w ≤ length bytes.now)
        × (height_of (coefficients_at w k (drop 10 bytes.now)) ≤ top w) }
    ensures { result ≡ uneven negate (coefficients_at w k (drop 10 bytes.now)) }
{
    match w {
        1 => uneven_at(&Body::<1>::new(bytes, k), negate),
        2 => uneven_at(&Body::<2>::new(bytes, k), negate),
        4 => uneven_at(&Body::<4>::new(bytes, k), negate),
        _ => uneven_at(&Body::<8>::new(bytes, k), negate),
    }
}

// The first `size` bytes, to where they are wanted.
pub fn copy(bytes: &[u8], size: usize, out: &mut [u8])
    requires { (size ≤ length bytes.now) × (size ≤ length out.old) }
    ensures { out.new ≡ sets out.old 0 (take size bytes.now) }
{
    // Stays by index: `copy_from_slice` would make the archive for C ask for memmove.
    for i in 0..size {
        out[i] = bytes[i];
    }
}

// The other half of `count` coefficients, in W bytes each, behind the first half.
fn put_at<const W: usize>(half: &Body<W>, count: usize, negate: bool, out: &mut [u8])
    requires { (length half.now ≡ half_of count) × (10 + count * W ≤ length out.old) }
    ensures { out.new
        ≡ sets out.old (10 + half_of count * W) (body W (drop (half_of count) (rebuilt negate count half.now))) }
{
    for i in half.len()..count {
        let v = half.number(count - 1 - i);
        put(out, 10 + i * W, W, image_of::<W>(v, negate));
    }
}

// The same, where the first half stands after the header of a record, with a loop of its own for each width.
pub fn put_other(bytes: &[u8], w: usize, count: usize, negate: bool, out: &mut [u8])
    requires { (one_of widths w ≡ true) × (10 + half_of count * w ≤ length bytes.now)
        × (10 + count * w ≤ length out.old) }
    ensures { out.new
        ≡ sets out.old (10 + half_of count * w)
        (body w (drop (half_of count)
        (rebuilt negate count (coefficients_at w (half_of count) (drop 10 bytes.now))))) }
{
    let half = (count + 1) / 2;
    match w {
        1 => put_at(&Body::<1>::new(bytes, half), count, negate, out),
        2 => put_at(&Body::<2>::new(bytes, half), count, negate, out),
        4 => put_at(&Body::<4>::new(bytes, half), count, negate, out),
        _ => put_at(&Body::<8>::new(bytes, half), count, negate, out),
    }
}
