// A message written in one pass: each row is judged and its element put into an array, by the order log where there is one, and all is
// copied out where there is room. The pass gives up where anything is amiss, where the order log names a place that is not above all that it named
// before and the rows do not tell that places fall, or where the kept log is too long or the array too short: then nothing is written, and the message has
// to be measured first.
#![tactic(auto)]

ghost use Rattle.std.specs.Prelude.{◌≤◌, ◌<◌, length, drop};
ghost use Rattle.definitions.specs.Rows.{rows_of};
ghost use Rattle.definitions.specs.Logs.{kept_list};
ghost use Rattle.order.specs.Order.{placed_as};
ghost use Rattle.seen.specs.Seen.{set_of};
ghost use Rattle.placing.specs.Pieces.{lent_of, PutBy, WroteBy, capacity};
ghost use Rattle.one_pass.specs.Passes.{concat_by, rest_by, passed_by, short_by, KeptBy, NextBy, KnownBy, EntryBy, EntriesBy};

use copying::put_slice;
use kept::{Count, entry_at};
use order::{Placed, entry_len, front_at};
use placing::{copy_out, is_few, put_logged};
use plain_writing::write_plain;
use rows::columns::places;
use rows::index::place_of;
use seen::Seen;
use unnamed::{names_of, put_unnamed};

// The most octets of a kept log that is looked at.
const MOST_SHORT: usize = 512;

// Where a pass is: the position in the array, the position in the kept log, and the place below which every place was looked at.
#[derive(Clone, Copy, PartialEq, Eq)]
pub struct Pen {
    pub at: usize,
    pub kept: usize,
    pub place: usize,
}

// The next kept element.
fn pass_kept(kept: &[u8], pen: Pen, out: &mut [u8]) -> Option<Pen>
    requires { (pen.kept < length kept.now) × (pen.at ≤ length out.old) }
    ensures { KeptBy kept.now pen out.old result out.new }
{
    let Count { value, took } = entry_at(&kept[pen.kept..])?;
    let at = pen.at;
    if out.len() - at < value {
        return None;
    }
    let start = pen.kept + took;
    let end = start + value;
    put_slice(&mut out[at..], &kept[start..end]);
    Some(Pen {
        at: at + value,
        kept: end,
        ..pen
    })
}

// The same, if there is one.
fn pass_next(kept: &[u8], pen: Pen, out: &mut [u8]) -> Option<Pen>
    requires { (pen.at ≤ length out.old) × (pen.kept ≤ length kept.now) }
    ensures { NextBy kept.now pen out.old result out.new }
{
    if pen.kept >= kept.len() {
        return Some(pen);
    }
    pass_kept(kept, pen, out)
}

// A known entry: the unnamed places below its own that were not looked at, then its own under the logged IEI; nothing of an IEI without a
// place. A place that was passed has to be among the names: else it was put before, and the pass ends. Most entries follow that of the
// place before. Whether there is a place between is asked right here: for a call all that is lent is laid out, also for one that puts
// nothing, and a message with logs takes a tenth more.
fn pass_known<'a>(
    table: &[u32],
    index: &[u8],
    rows: &[u32],
    received: &'a [u8],
    set: &'a [u8],
    names: Seen,
    iei: u8,
    pen: Pen,
    out: &mut [u8],
) -> Option<Pen>
    requires { pen.at ≤ length out.old }
    ensures { KnownBy (lent_of table.now rows.now received.now set.now) index.now (set_of names) iei pen out.old result out.new }
{
    let Some(k) = place_of(index, iei) else {
        return Some(pen);
    };
    let mut at = pen.at;
    let mut place = k + 1;
    if k < pen.place {
        if !names.has(k) {
            return None;
        }
        place = pen.place;
    }
    if pen.place < k {
        at = put_unnamed(table, rows, received, set, names, pen.place, k, out, at)?;
    }
    let at = put_logged(table, rows, received, set, k, iei, out, at)?;
    Some(Pen { at, place, ..pen })
}

// An entry of the order log.
fn pass_entry<'a>(
    table: &[u32],
    index: &[u8],
    rows: &[u32],
    received: &'a [u8],
    set: &'a [u8],
    kept: &[u8],
    names: Seen,
    entry: Placed,
    pen: Pen,
    out: &mut [u8],
) -> Option<Pen>
    requires { (pen.at ≤ length out.old) × (pen.kept ≤ length kept.now) }
    ensures { EntryBy (lent_of table.now rows.now received.now set.now) index.now (set_of names) kept.now (placed_as entry) pen out.old result out.new }
{
    match entry {
        Placed::Known(iei) => pass_known(table, index, rows, received, set, names, iei, pen, out),
        _ => pass_next(kept, pen, out),
    }
}

// The whole order log.
fn pass_entries<'a>(
    table: &[u32],
    index: &[u8],
    rows: &[u32],
    received: &'a [u8],
    set: &'a [u8],
    kept: &[u8],
    order: &[u8],
    names: Seen,
    out: &mut [u8],
) -> Option<Pen>
    ensures { EntriesBy (lent_of table.now rows.now received.now set.now) index.now (set_of names) order.now kept.now out.old result out.new }
{
    let mut pen = Pen {
        at: 0,
        kept: 0,
        place: 0,
    };
    let mut from = 0;
    while from < order.len() {
        let entry = front_at(&order[from..])?;
        pen = pass_entry(
            table, index, rows, received, set, kept, names, entry, pen, out,
        )?;
        from += entry_len(entry);
    }
    Some(pen)
}

// The kept elements that are left.
fn pass_left(kept: &[u8], pen: Pen, out: &mut [u8]) -> Option<usize>
    requires { (pen.at ≤ length out.old) × (pen.kept ≤ length kept.now) }
    ensures { PutBy (concat_by (kept_list (drop pen.kept kept.now))) pen.at out.old result out.new }
{
    let mut p = pen;
    while p.kept < kept.len() {
        p = pass_kept(kept, p, out)?;
    }
    Some(p.at)
}

// What is left behind the order log: the unnamed places, then the kept elements.
fn pass_rest<'a>(
    table: &[u32],
    rows: &[u32],
    received: &'a [u8],
    set: &'a [u8],
    kept: &[u8],
    names: Seen,
    pen: Pen,
    out: &mut [u8],
) -> Option<usize>
    requires { (pen.at ≤ length out.old) × (pen.kept ≤ length kept.now) }
    ensures { PutBy (rest_by (lent_of table.now rows.now received.now set.now) (set_of names) kept.now pen) pen.at out.old result out.new }
{
    let n = places(table);
    let mut at = pen.at;
    if pen.place < n {
        at = put_unnamed(table, rows, received, set, names, pen.place, n, out, at)?;
    }
    pass_left(kept, Pen { at, ..pen }, out)
}

// All of a message, by the named places.
fn pass<'a>(
    table: &[u32],
    index: &[u8],
    rows: &[u32],
    received: &'a [u8],
    set: &'a [u8],
    kept: &[u8],
    order: &[u8],
    out: &mut [u8],
) -> Option<usize>
    ensures { PutBy (passed_by (lent_of table.now rows.now received.now set.now) index.now order.now kept.now) 0 out.old result out.new }
{
    let names = names_of(index, rows, order, places(table));
    let pen = pass_entries(table, index, rows, received, set, kept, order, names, out)?;
    pass_rest(table, rows, received, set, kept, names, pen, out)
}

// By an array of so many octets. It is cleared at each call, so it is of one of two lengths.
fn pass_in<'a, const N: usize>(
    table: &[u32],
    index: &[u8],
    rows: &[u32],
    received: &'a [u8],
    set: &'a [u8],
    kept: &[u8],
    order: &[u8],
    output: &mut [u8],
) -> Option<usize>
    requires { N ≤ 512 }
    ensures { WroteBy N (passed_by (lent_of table.now rows.now received.now set.now) index.now order.now kept.now) output.old result output.new }
{
    let mut found = [0u8; N];
    let passed = pass(table, index, rows, received, set, kept, order, &mut found);
    copy_out(output, &found, passed)
}

// A message into the output, all of it or nothing.
pub fn write_pass<'a>(
    table: &[u32],
    index: &[u8],
    rows: &[u32],
    received: &'a [u8],
    set: &'a [u8],
    kept: &[u8],
    order: &[u8],
    output: &mut [u8],
) -> Option<usize>
    ensures { WroteBy (capacity (length (rows_of table.now)) (length kept.now)) (short_by (lent_of table.now rows.now received.now set.now) index.now order.now kept.now) output.old result output.new }
{
    if order.is_empty() && kept.is_empty() {
        return write_plain(table, rows, received, set, output);
    }
    if kept.len() > MOST_SHORT {
        return None;
    }
    if is_few(places(table), kept.len()) {
        return pass_in::<128>(table, index, rows, received, set, kept, order, output);
    }
    pass_in::<512>(table, index, rows, received, set, kept, order, output)
}
