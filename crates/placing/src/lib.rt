// The elements of places, put into an array one behind the other and copied out where there is room: each row is judged as its element is put.
// Where anything is amiss nothing goes to the output, and the caller measures the message first.
#![tactic(auto)]

ghost use Rattle.std.specs.Prelude.{◌≡◌, ◌&&◌, ◌-◌, ◌≤◌, length, leb, None};
ghost use Rattle.rows.specs.Numbers.{numbers_at};
ghost use Rattle.placing.specs.Pieces.{lent_of, piece_by, ranged, PutBy, put_all, CopiedBy};

use agreement::is_unlike;
use copying::put_slice;
use putting::put_ie;
use rows::columns::{form_of, numbers_at};
use values::row::{is_good, row_at, value_octets};

// The element of a place under its first IEI, if the place is present.
fn put_first<'a>(
    table: &[u32],
    rows: &[u32],
    received: &'a [u8],
    set: &'a [u8],
    place: usize,
    out: &mut [u8],
    at: usize,
) -> Option<usize>
    requires { at ≤ length out.old }
    ensures put_by { PutBy (piece_by (lent_of table.now rows.now received.now set.now) place (numbers_at table.now place).first) at out.old result out.new }
    ensures out_unchanged { result ≡ None → out.new ≡ out.old }
{
    let row = row_at(rows, place);
    if !is_good(row, received, set) {
        return None;
    }
    if row.source == 0 {
        return Some(at);
    }
    let n = numbers_at(table, place);
    if is_unlike(row, n.first) || n.first > 255 {
        return None;
    }
    let value = value_octets(received, set, row);
    let form = form_of(n.code, n.size);
    let took = put_ie(&mut out[at..], form, row.source, n.first as u8, value)?;
    Some(at + took)
}

// The places from one on, up to another, each under its first IEI, behind a position, as far as each row is right and has room.
pub fn put_between<'a>(
    table: &[u32],
    rows: &[u32],
    received: &'a [u8],
    set: &'a [u8],
    from: usize,
    to: usize,
    out: &mut [u8],
    start: usize,
) -> Option<usize>
    ensures put_by { PutBy (ranged (lent_of table.now rows.now received.now set.now) from (to - from)) start out.old result out.new }
    ensures out_after { out.new ≡ put_all (lent_of table.now rows.now received.now set.now) from (to - from) start out.old }
{
    if start > out.len() {
        return None;
    }
    let mut at = start;
    for k in from..to {
        at = put_first(table, rows, received, set, k, out, at)?;
    }
    Some(at)
}

// The element of a place under an IEI of the order log, if the place is present, behind a position. It does by itself what `put_first` does under
// the first one: where both call one function, that is put into neither, and a message without logs takes a sixth more, or worse.
pub fn put_logged<'a>(
    table: &[u32],
    rows: &[u32],
    received: &'a [u8],
    set: &'a [u8],
    place: usize,
    iei: u8,
    out: &mut [u8],
    at: usize,
) -> Option<usize>
    ensures { PutBy (piece_by (lent_of table.now rows.now received.now set.now) place iei) at out.old result out.new }
{
    if at > out.len() {
        return None;
    }
    let row = row_at(rows, place);
    if !is_good(row, received, set) {
        return None;
    }
    if row.source == 0 {
        return Some(at);
    }
    let n = numbers_at(table, place);
    if is_unlike(row, u32::from(iei)) {
        return None;
    }
    let value = value_octets(received, set, row);
    let form = form_of(n.code, n.size);
    let took = put_ie(&mut out[at..], form, row.source, iei, value)?;
    Some(at + took)
}

// The first so many octets that were found, into the output, if it has room; how many.
pub fn copy_out(output: &mut [u8], found: &[u8], passed: Option<usize>) -> Option<usize>
    ensures { CopiedBy passed found.now output.old result output.new }
{
    let n = passed?;
    if found.len() < n || output.len() < n {
        return None;
    }
    put_slice(output, &found[..n]);
    Some(n)
}

// Whether the shorter array is taken, by the places of the table and the octets of the kept log.
pub fn is_few(places: usize, kept: usize) -> bool
    ensures { result ≡ (leb places 16 && leb kept 64) }
{
    places <= 16 && kept <= 64
}
