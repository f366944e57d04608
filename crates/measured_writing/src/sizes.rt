// What writing needs to know before an octet is written: whether the rows are well formed and the values fit, how many octets there
// are to write, which places the order log names, and which are added.
ghost use Rattle.std.specs.Prelude.{◌≡◌, ◌≤◌, ◌<◌, length};
ghost use Rattle.std.proofs.Math.Option.{none};
ghost use Rattle.definitions.specs.Rows.{rows_of, first_bad};
ghost use Rattle.order.specs.Order.{placed_as};
ghost use Rattle.seen.specs.Seen.{set_of};
ghost use Rattle.rows.specs.Forms.{form_as};
ghost use Rattle.agreement.specs.Agreed.{entry_apart};
ghost use Rattle.measured_writing.specs.Added.{filled_of};
ghost use Rattle.measured_writing.specs.Sizes.{takes, place_length, most_ie, Sized, Tallied, tally_of, WalkedBy, added_to, wrong_at, LookedAt, SurveyedBy, AsidesAre};

use agreement::{apart_with, is_unlike};
use order::{Placed, entry_len, front_at};
use rows::columns::{Form, form_of, numbers_at, places};
use rows::index::place_of;
use seen::Seen;
use values::row::{does_fit, is_good, row_at, value_octets};

// The octets of the added elements, and their places.
#[derive(Clone, Copy, PartialEq, Eq)]
pub struct Tally {
    pub octets: usize,
    pub seen: Seen,
}

// The octets of the elements under logged IEIs, their places, and whether a row disagrees with the earliest IEI of its place.
#[derive(Clone, Copy, PartialEq, Eq)]
pub struct Logged {
    pub octets: usize,
    pub seen: Seen,
    pub apart: bool,
}

// What is wrong with the row of a place: it is malformed or disagrees with the order log, or its value does not fit.
#[derive(Clone, Copy, PartialEq, Eq)]
pub enum RowFault {
    Bad,
    Unfit,
}

// What is wrong with all rows: one is malformed or disagrees; or a place is the lowest whose value does not fit.
#[derive(Clone, Copy, PartialEq, Eq)]
pub enum SurveyError {
    Malformed,
    Unfit(usize),
}

// How many octets an element takes with a value of so many.
fn ie_len(form: Form, len: usize) -> usize
    requires { len < 4294967296 }
    ensures { result ≡ takes (form_as form) len }
{
    match form {
        Form::Half => 1,
        Form::Fixed(_) => 1 + len,
        Form::Tlv => 2 + len,
        Form::TlvE => 3 + len,
    }
}

// How many octets the element of a place takes, under whatever IEI; none of an absent one.
fn place_len<'a>(
    table: &[u32],
    rows: &[u32],
    received: &'a [u8],
    set: &'a [u8],
    place: usize,
) -> usize
    requires { (first_bad (rows_of table.now) ≡ none) × (length received.now ≤ 65535) × (length set.now ≤ 65535) }
    ensures { (result ≡ place_length (filled_of table.now rows.now received.now set.now) place) × (result ≤ most_ie) }
{
    let row = row_at(rows, place);
    if row.source == 0 {
        return 0;
    }
    let n = numbers_at(table, place);
    let value = value_octets(received, set, row);
    ie_len(form_of(n.code, n.size), value.len())
}

// With one entry more of the order log.
fn with_entry<'a>(
    table: &[u32],
    index: &[u8],
    rows: &[u32],
    received: &'a [u8],
    set: &'a [u8],
    t: Logged,
    entry: Placed,
) -> Logged
    requires { Sized table.now index.now received.now set.now × (t.octets < 1099511627776) }
    ensures { Tallied (filled_of table.now rows.now received.now set.now) (placed_as entry) (tally_of t) (tally_of result) × (result.apart ≡ entry_apart (rows_of table.now) rows.now (placed_as entry) (set_of t.seen) t.apart) }
{
    let seen = t.seen;
    match entry {
        Placed::Known(iei) => match place_of(index, iei) {
            Some(k) => Logged {
                octets: t.octets + place_len(table, rows, received, set, k),
                seen: seen.with(k),
                apart: apart_with(rows, seen, t.apart, k, iei as u32),
            },
            None => t,
        },
        _ => t,
    }
}

// How many entries at the front of a log are none of a known element: each is one octet, from 1 to 4.
fn asides(order: &[u8]) -> usize
    ensures { (result ≤ length order.now) × AsidesAre order.now result }
{
    order
        .iter()
        .position(|&x| x == 0 || x > 4)
        .unwrap_or(order.len())
}

// The whole order log.
pub(crate) fn logged_len<'a>(
    table: &[u32],
    index: &[u8],
    rows: &[u32],
    received: &'a [u8],
    set: &'a [u8],
    order: &[u8],
) -> Option<Logged>
    requires { Sized table.now index.now received.now set.now × (length order.now ≤ 131070) }
    ensures { WalkedBy (filled_of table.now rows.now received.now set.now) order.now result }
{
    let mut at = 0;
    let mut t = Logged {
        octets: 0,
        seen: Seen::new(),
        apart: false,
    };
    while at < order.len() {
        let n = asides(&order[at..]);
        if n > 0 {
            at += n;
        } else {
            let entry = front_at(&order[at..])?;
            t = with_entry(table, index, rows, received, set, t, entry);
            at += entry_len(entry);
        }
    }
    Some(t)
}

// Whether a place's row is malformed, or it is present, the order log does not name it, and its IEI is not its first.
fn is_wrong(
    table: &[u32],
    rows: &[u32],
    received: &[u8],
    set: &[u8],
    seen: Seen,
    place: usize,
) -> bool
    requires { first_bad (rows_of table.now) ≡ none }
    ensures { result ≡ wrong_at (filled_of table.now rows.now received.now set.now) (set_of seen) place }
{
    let row = row_at(rows, place);
    if !is_good(row, received, set) {
        return true;
    }
    if row.source == 0 {
        return false;
    }
    is_unlike(row, numbers_at(table, place).first) && !seen.has(place)
}

// One look at a place, by the set of those in the order log: how many octets its element takes, None of an absent one; or what is wrong.
fn look<'a>(
    table: &[u32],
    rows: &[u32],
    received: &'a [u8],
    set: &'a [u8],
    seen: Seen,
    place: usize,
) -> Result<Option<usize>, RowFault>
    requires { (first_bad (rows_of table.now) ≡ none) × (length received.now ≤ 65535) × (length set.now ≤ 65535) }
    ensures { LookedAt (filled_of table.now rows.now received.now set.now) (set_of seen) place result }
{
    if is_wrong(table, rows, received, set, seen, place) {
        return Err(RowFault::Bad);
    }
    let row = row_at(rows, place);
    if row.source == 0 {
        return Ok(None);
    }
    let n = numbers_at(table, place);
    let form = form_of(n.code, n.size);
    let value = value_octets(received, set, row);
    if !does_fit(form, row.source, value) {
        return Err(RowFault::Unfit);
    }
    Ok(Some(ie_len(form, value.len())))
}

// With a present place, whose element is an added one if the order log does not name it.
fn with_added(seen: Seen, place: usize, len: usize, t: Tally) -> Tally
    requires { (len ≤ most_ie) × (t.octets < 1099511627776) }
    ensures { result ≡ added_to (set_of seen) place len t }
{
    if seen.has(place) {
        return t;
    }
    let added = t.seen;
    Tally {
        octets: t.octets + len,
        seen: added.with(place),
    }
}

// One look at each place, by the set of those in the order log. A value that does not fit waits for the rows behind it: one that is
// wrong comes first.
pub(crate) fn survey<'a>(
    table: &[u32],
    rows: &[u32],
    received: &'a [u8],
    set: &'a [u8],
    seen: Seen,
) -> Result<Tally, SurveyError>
    requires { (first_bad (rows_of table.now) ≡ none) × (length received.now ≤ 65535) × (length set.now ≤ 65535) }
    ensures { SurveyedBy (filled_of table.now rows.now received.now set.now) (set_of seen) result }
{
    let mut t = Tally {
        octets: 0,
        seen: Seen::new(),
    };
    let mut unfit = None;
    for k in 0..places(table) {
        match look(table, rows, received, set, seen, k) {
            Ok(None) => {}
            Ok(Some(len)) => t = with_added(seen, k, len, t),
            Err(RowFault::Bad) => return Err(SurveyError::Malformed),
            Err(RowFault::Unfit) => unfit = unfit.or(Some(k)),
        }
    }
    match unfit {
        Some(k) => Err(SurveyError::Unfit(k)),
        None => Ok(t),
    }
}
