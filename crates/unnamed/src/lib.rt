// The places that an order log names, and the elements of those that it does not: what a message has been given since it was received, which
// is written before the next logged element of a higher place. Where a message was received in the table's order, an element that the log
// names comes behind all lower ones, and it need not be known beforehand which are named: then the log is not gone over.
#![tactic(auto)]

ghost use Rattle.std.specs.Prelude.{◌≡◌, ◌-◌};
ghost use Rattle.placing.specs.Pieces.{lent_of, PutBy};
ghost use Rattle.seen.specs.Seen.{set_of};
ghost use Rattle.values.specs.Rows.{sources_of};
ghost use Rattle.unnamed.specs.Named.{with_iei, named, falls_from, names, unnamed, bare};

use placing::put_between;
use rows::index::place_of;
use seen::Seen;
use values::row::{is_good, row_at};

// A set with the place of an IEI in it, if it has one.
fn with_iei(index: &[u8], set: Seen, iei: u8) -> Seen
    ensures { set_of result ≡ with_iei index.now iei (set_of set) }
{
    match place_of(index, iei) {
        Some(k) => set.with(k),
        None => set,
    }
}

// The places of the IEIs in an order log.
fn named_in(index: &[u8], order: &[u8]) -> Seen
    ensures { set_of result ≡ named index.now 0 order.now }
{
    let mut set = Seen::new();
    let mut from = 0;
    while from < order.len() {
        if order[from] > 0 {
            from += 1;
        } else {
            if order.len() - from < 2 {
                return set;
            }
            set = with_iei(index, set, order[from + 1]);
            from += 2;
        }
    }
    set
}

// Whether one of the first places was received before a lower one.
fn starts_fall(rows: &[u32], places: usize) -> bool
    ensures { result ≡ falls_from rows.now 0 places 0 }
{
    let mut high = 0;
    for k in 0..places {
        let row = row_at(rows, k);
        if row.source == 1 {
            if row.start < high {
                return true;
            }
            high = row.start;
        }
    }
    false
}

// The places that an order log names, where the first so many were received in another order than the table's; else none.
#[tactic(auto, unfolding(crate::specs::Named::names))]
pub fn names_of(index: &[u8], rows: &[u32], order: &[u8], places: usize) -> Seen
    ensures { set_of result ≡ names index.now rows.now order.now places }
{
    if starts_fall(rows, places) {
        return named_in(index, order);
    }
    Seen::new()
}

// Whether the rows of the places from one on, up to another, are all absent and well formed.
fn is_bare(rows: &[u32], received: &[u8], set: &[u8], from: usize, to: usize) -> bool
    ensures { result ≡ bare (sources_of received.now set.now) rows.now from (to - from) }
{
    (from..to).all(|k| {
        let row = row_at(rows, k);
        row.source == 0 && is_good(row, received, set)
    })
}

// The elements of the places from one on, up to another, that a set does not name, each under its first IEI, behind a position. Most
// messages have none between two logged ones: so the rows are looked through first.
pub fn put_unnamed<'a>(
    table: &[u32],
    rows: &[u32],
    received: &'a [u8],
    set: &'a [u8],
    names: Seen,
    from: usize,
    to: usize,
    out: &mut [u8],
    start: usize,
) -> Option<usize>
    ensures { PutBy (unnamed (lent_of table.now rows.now received.now set.now) (set_of names) from (to - from)) start out.old result out.new }
{
    if start > out.len() {
        return None;
    }
    if is_bare(rows, received, set, from, to) {
        return Some(start);
    }
    let mut at = start;
    for k in from..to {
        if !names.has(k) {
            at = put_between(table, rows, received, set, k, k + 1, out, at)?;
        }
    }
    Some(at)
}
