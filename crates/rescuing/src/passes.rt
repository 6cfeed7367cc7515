// The passes over a shelf, a search after the other: one that counts, and one that writes.
ghost use Rattle.std.specs.Prelude.{◌≡◌, true, not, [], ◌+◌, ◌-◌, ◌/◌, ◌≤◌, ◌<◌, ◌⊎◌, length, eqb};
ghost use Rattle.std.proofs.lemmas.List.Edits.{sets};
ghost use Rattle.definitions.specs.Codes.{DONE};
ghost use Rattle.keeping.specs.Keepable.{keepable};
ghost use Rattle.rescuing.specs.Rescue.{size_at, stretch, kept, listed, rescue_code};
ghost use Rattle.rescuing.specs.Passes.{NextIs, CountIs};

use half_passes::copy;
use keeping::{Cramped, search};
use std::ops::Range;

// So many bytes are kept, and so many numbers listed.
#[derive(Clone, Copy)]
pub(crate) struct Count {
    pub kept: usize,
    pub slots: usize,
}

// The size of the record where a search ended; at the shelf's end there is none.
fn size_at(bytes: &[u8]) -> usize
    requires { (bytes.now ≡ []) ⊎ (keepable bytes.now ≡ true) }
    ensures { result ≡ size_at bytes.now }
{
    if bytes.is_empty() {
        return 0;
    }
    shelf::size_in(bytes)
}

// A search from a place on: where the record that it found stands.
fn next_from(shelf: &[u8], at: usize, coeffs: &mut [i64]) -> Result<Range<usize>, Cramped>
    requires { at ≤ length shelf.now }
    ensures next_is { NextIs (length coeffs.old) shelf.now at result }
    ensures coeffs_len_unchanged { length coeffs.new ≡ length coeffs.old }
{
    let start = search(shelf, at, coeffs)?;
    let end = start + size_at(&shelf[start..]);
    Ok(start..end)
}

// How many numbers the stretch from one place to another has in the list.
fn slots_for(at: usize, start: usize) -> usize
    ensures { result ≡ length (stretch at (start - at)) }
{
    if at < start { 2 } else { 0 }
}

// The pass that counts. It ends where some record has too little room for its coefficients.
fn count_all(shelf: &[u8], coeffs: &mut [i64]) -> Result<Count, Cramped>
    ensures count_is { CountIs (length coeffs.old) shelf.now result }
    ensures coeffs_len_unchanged { length coeffs.new ≡ length coeffs.old }
{
    let mut at = 0;
    let mut kept = 0;
    let mut slots = 0;
    // Stays a while: each turn goes on where the record that it found ends.
    while at < shelf.len() {
        let found = next_from(shelf, at, coeffs)?;
        slots += slots_for(at, found.start);
        kept += found.end - found.start;
        at = found.end;
    }
    Ok(Count { kept, slots })
}

// Are the rooms so large that SHORT can't be met? A stretch and the record after it have 11 bytes at least.
fn is_roomy(len: usize, room: usize, slots: usize, entries: usize) -> bool
    ensures { result ≡ true → (len ≤ room) × (len / 11 < slots / 2) × (65536 ≤ entries) }
{
    len <= room && len / 11 < slots / 2 && 65536 <= entries
}

// Is it SHORT, for so many bytes, numbers and coefficients?
pub(crate) fn is_short(shelf: &[u8], room: usize, slots: usize, coeffs: &mut [i64]) -> bool
    ensures value { result ≡ not (eqb (rescue_code shelf.now room slots (length coeffs.old)) DONE) }
    ensures coeffs_len_unchanged { length coeffs.new ≡ length coeffs.old }
{
    if is_roomy(shelf.len(), room, slots, coeffs.len()) {
        return false;
    }
    match count_all(shelf, coeffs) {
        Ok(all) => room < all.kept || slots < all.slots,
        Err(_) => true,
    }
}

// A stretch in the list, if it is not empty; answers the slot after it.
fn put_stretch(list: &mut [u64], slot: usize, at: usize, start: usize) -> usize
    requires { slot + length (stretch at (start - at)) ≤ length list.old }
    ensures value { result ≡ slot + length (stretch at (start - at)) }
    ensures list_after { list.new ≡ sets list.old slot (stretch at (start - at)) }
{
    if at < start {
        list[slot] = at as u64;
        list[slot + 1] = (start - at) as u64;
        return slot + 2;
    }
    slot
}

// A record in the output; answers the place after it.
fn put_record(bytes: &[u8], out: &mut [u8], at: usize) -> usize
    requires { at + length bytes.now ≤ length out.old }
    ensures value { result ≡ at + length bytes.now }
    ensures out_after { out.new ≡ sets out.old at bytes.now }
{
    let end = at + bytes.len();
    copy(bytes, bytes.len(), &mut out[at..end]);
    end
}

// The pass that writes.
pub(crate) fn write_all(shelf: &[u8], out: &mut [u8], list: &mut [u64], coeffs: &mut [i64]) -> Count
    requires { rescue_code shelf.now (length out.old) (length list.old) (length coeffs.old) ≡ DONE }
    ensures kept_value { (result.kept ≡ length (kept shelf.now)) × (result.slots ≡ length (listed shelf.now)) }
    ensures out_after { out.new ≡ sets out.old 0 (kept shelf.now) }
    ensures list_after { list.new ≡ sets list.old 0 (listed shelf.now) }
    ensures coeffs_len_unchanged { length coeffs.new ≡ length coeffs.old }
{
    let mut at = 0;
    let mut kept = 0;
    let mut slots = 0;
    // Stays a while: each turn goes on where the record that it found ends.
    while at < shelf.len() {
        let found = next_from(shelf, at, coeffs).unwrap();
        slots = put_stretch(list, slots, at, found.start);
        kept = put_record(&shelf[found.start..found.end], out, kept);
        at = found.end;
    }
    Count { kept, slots }
}
