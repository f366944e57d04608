// A message walked by its order log and written as it goes, by the numbers of a table, an index and a set of added places as they are lent. Each
// piece goes into the rest of the output, where there is room for it: of a message that was measured there is room for all.
#![tactic(auto)]

ghost use Rattle.std.specs.Prelude.{◌≡◌, [], ◌∷◌, ℕ, ◌-◌, ◌≤◌, ◌<◌, length, drop, get_or};
ghost use Rattle.definitions.specs.Basic.{over};
ghost use Rattle.definitions.specs.Logs.{count_at};
ghost use Rattle.definitions.proofs.Logs.{entry_of};
ghost use Rattle.kept.specs.Kept.{count_from};
ghost use Rattle.placing.specs.Pieces.{lent_of};
ghost use Rattle.seen.specs.Seen.{set_of};
ghost use Rattle.walking.specs.Walks.{element_by, added_piece, added_by, elements_from, known_by, place_after, pieces_by, Lays, NextLaid, RunLaid, KnownLaid, WalkLaid};

use copying::put_slice;
use kept::{Count, entry_at, is_like};
use putting::put_ie;
use rows::columns::{form_of, numbers_at, places};
use rows::index::place_of;
use seen::Seen;
use values::row::{row_at, value_octets};

// Where writing is: the position in the output, the position in the kept log, the place below which every added element is written,
// and how many octets the last kept element had, as the next is expected to have.
#[derive(Clone, Copy, PartialEq, Eq)]
pub struct Pen {
    pub at: usize,
    pub kept: usize,
    pub place: usize,
    pub len: usize,
}

// The element of a place under an IEI, if the place is present; the position behind it.
fn put_place<'a>(
    table: &[u32],
    rows: &[u32],
    received: &'a [u8],
    set: &'a [u8],
    place: usize,
    iei: u8,
    output: &mut [u8],
    at: usize,
) -> usize
    requires { at ≤ length output.old }
    ensures { Lays (element_by (lent_of table.now rows.now received.now set.now) place iei ∷ []) at output.old result output.new }
{
    let row = row_at(rows, place);
    if row.source == 0 {
        return at;
    }
    let n = numbers_at(table, place);
    let value = value_octets(received, set, row);
    let form = form_of(n.code, n.size);
    let took = put_ie(&mut output[at..], form, row.source, iei, value);
    at + took.unwrap_or(0)
}

// The element of a place under its first IEI, if it is an added one; the position behind it. It does what `put_place` does by itself: a
// call for each added element, with all that is lent, took a tenth of a writing's time.
fn put_first<'a>(
    table: &[u32],
    rows: &[u32],
    received: &'a [u8],
    set: &'a [u8],
    added: Seen,
    place: usize,
    output: &mut [u8],
    at: usize,
) -> usize
    requires { at ≤ length output.old }
    ensures { Lays (added_piece (lent_of table.now rows.now received.now set.now) (set_of added) place ∷ []) at output.old result output.new }
{
    if !added.has(place) {
        return at;
    }
    let row = row_at(rows, place);
    if row.source == 0 {
        return at;
    }
    let n = numbers_at(table, place);
    let value = value_octets(received, set, row);
    let form = form_of(n.code, n.size);
    let took = put_ie(
        &mut output[at..],
        form,
        row.source,
        (n.first % 256) as u8,
        value,
    );
    at + took.unwrap_or(0)
}

// The added elements from a place on, up to another, ascending and each under its first IEI; the position behind them.
fn put_added<'a>(
    table: &[u32],
    rows: &[u32],
    received: &'a [u8],
    set: &'a [u8],
    added: Seen,
    from: usize,
    to: usize,
    output: &mut [u8],
    at: usize,
) -> usize
    requires { at ≤ length output.old }
    ensures { Lays (added_by (lent_of table.now rows.now received.now set.now) (set_of added) from (to - from)) at output.old result output.new }
{
    let mut next = at;
    for k in from..to {
        next = put_first(table, rows, received, set, added, k, output, next);
    }
    next
}

// The same where there may be none: most messages have no added element, and are not looked through for one at each entry.
fn put_lower<'a>(
    table: &[u32],
    rows: &[u32],
    received: &'a [u8],
    set: &'a [u8],
    added: Seen,
    from: usize,
    to: usize,
    output: &mut [u8],
    at: usize,
) -> usize
    requires { at ≤ length output.old }
    ensures { Lays (added_by (lent_of table.now rows.now received.now set.now) (set_of added) from (to - from)) at output.old result output.new }
{
    if added.is_empty() {
        return at;
    }
    put_added(table, rows, received, set, added, from, to, output, at)
}

// Octets that have room. One and two are stored right here: a call of the copy would take longer.
fn put_octets(out: &mut [u8], octets: &[u8])
    requires { length octets.now ≤ length out.old }
    ensures { out.new ≡ over octets.now out.old }
{
    if octets.len() == 1 {
        out[0] = octets[0];
        return;
    }
    if octets.len() == 2 {
        out[0] = octets[0];
        out[1] = octets[1];
        return;
    }
    put_slice(out, octets);
}

// The next kept element, whose count is known.
fn put_found(kept: &[u8], pen: Pen, found: Count, output: &mut [u8]) -> Pen
    requires { (entry_of (drop pen.kept kept.now) (count_at (drop pen.kept kept.now)) ≡ count_from found.value found.took) × (pen.kept ≤ length kept.now) × (pen.at ≤ length output.old) }
    ensures { NextLaid kept.now pen output.old result output.new }
{
    let Count { value, took } = found;
    let mut at = pen.at;
    let start = pen.kept + took;
    let end = start + value;
    if output.len() - at >= value {
        put_octets(&mut output[at..], &kept[start..end]);
        at += value;
    }
    Pen {
        at,
        kept: end,
        len: value,
        ..pen
    }
}

// The next kept element, if there is one; behind what is malformed there is none. For speed one as long as the last goes a way of its own:
// joined with any other behind `entry_like`, it took four instructions and a jump more.
fn put_kept(kept: &[u8], pen: Pen, output: &mut [u8]) -> Pen
    requires { (pen.kept ≤ length kept.now) × (pen.at ≤ length output.old) }
    ensures { NextLaid kept.now pen output.old result output.new }
{
    let left = &kept[pen.kept..];
    if is_like(left, pen.len) {
        let like = Count {
            value: pen.len,
            took: 1,
        };
        return put_found(kept, pen, like, output);
    }
    let Some(found) = entry_at(left) else {
        return Pen {
            kept: kept.len(),
            ..pen
        };
    };
    put_found(kept, pen, found, output)
}

// A known entry: the added elements of lower place, then its own under the logged IEI; nothing of an IEI without a place.
fn put_known<'a>(
    table: &[u32],
    index: &[u8],
    rows: &[u32],
    received: &'a [u8],
    set: &'a [u8],
    added: Seen,
    iei: u8,
    pen: Pen,
    output: &mut [u8],
) -> Pen
    requires { pen.at ≤ length output.old }
    ensures { KnownLaid (lent_of table.now rows.now received.now set.now) index.now (set_of added) iei pen output.old result output.new }
{
    let Some(k) = place_of(index, iei) else {
        return pen;
    };
    let at = put_lower(
        table, rows, received, set, added, pen.place, k, output, pen.at,
    );
    Pen {
        at: put_place(table, rows, received, set, k, iei, output, at),
        place: pen.place.max(k),
        ..pen
    }
}

// How many entries at the front of a log are none of a known element: each is one octet, and not 0, with which that of a known one begins.
fn asides(order: &[u8]) -> usize
    ensures { (result ≤ length order.now) × ((j : ℕ) → j < result → 1 ≤ get_or order.now j 0) × (result < length order.now → get_or order.now result 0 ≡ 0) }
{
    order.iter().position(|&x| x == 0).unwrap_or(order.len())
}

// The next n kept elements, as far as there are any: those of a run of entries, or all. Called for both, it stays a function of its own,
// in whose loop there is nothing else to hold.
fn put_run(kept: &[u8], pen: Pen, n: usize, output: &mut [u8]) -> Pen
    requires { (pen.kept ≤ length kept.now) × (pen.at ≤ length output.old) }
    ensures { RunLaid kept.now n pen output.old result output.new }
{
    let mut p = pen;
    for _ in 0..n {
        if p.kept >= kept.len() {
            return p;
        }
        p = put_kept(kept, p, output);
    }
    p
}

// The whole order log: a run of entries, or one of a known element, which is 0 and its IEI; a 0 at its end is none.
fn put_entries<'a>(
    table: &[u32],
    index: &[u8],
    rows: &[u32],
    received: &'a [u8],
    set: &'a [u8],
    kept: &[u8],
    order: &[u8],
    added: Seen,
    output: &mut [u8],
) -> Pen
    ensures { WalkLaid (lent_of table.now rows.now received.now set.now) index.now (set_of added) order.now kept.now output.old [] result output.new }
{
    let mut pen = Pen {
        at: 0,
        kept: 0,
        place: 0,
        len: 1,
    };
    let mut from = 0;
    while from < order.len() {
        let n = asides(&order[from..]);
        if n > 0 {
            pen = put_run(kept, pen, n, output);
            from += n;
        } else {
            if order.len() - from < 2 {
                return pen;
            }
            let iei = order[from + 1];
            pen = put_known(table, index, rows, received, set, added, iei, pen, output);
            from += 2;
        }
    }
    pen
}

// The kept elements that are left; the position behind them.
fn put_left(kept: &[u8], pen: Pen, output: &mut [u8]) -> usize
    requires { (pen.kept ≤ length kept.now) × (pen.at ≤ length output.old) }
    ensures { Lays (elements_from kept.now pen.kept) pen.at output.old result output.new }
{
    put_run(kept, pen, kept.len(), output).at
}

// All that a message is written as; the position behind it.
pub fn write_walk<'a>(
    table: &[u32],
    index: &[u8],
    rows: &[u32],
    received: &'a [u8],
    set: &'a [u8],
    kept: &[u8],
    order: &[u8],
    added: Seen,
    output: &mut [u8],
) -> usize
    ensures { Lays (pieces_by (lent_of table.now rows.now received.now set.now) index.now (set_of added) order.now 0 (elements_from kept.now 0)) 0 output.old result output.new }
{
    let pen = put_entries(
        table, index, rows, received, set, kept, order, added, output,
    );
    let at = put_lower(
        table,
        rows,
        received,
        set,
        added,
        pen.place,
        places(table),
        output,
        pen.at,
    );
    put_left(kept, Pen { at, ..pen }, output)
}
