// What reading writes into the lent rows and logs, once it is known that there is room.
ghost use Rattle.std.specs.Prelude.{◌≡◌, ◌+◌, ◌≤◌, length};
ghost use Rattle.definitions.specs.Basic.{over_at};
ghost use Rattle.definitions.specs.Logs.{kept_entry, order_entry};
ghost use Rattle.definitions.specs.Elements.{parted};
ghost use Rattle.order.specs.Order.{placed_as};
ghost use Rattle.by_index.specs.ByIndex.{rows_by};
ghost use Rattle.filling.specs.Fills.{SaidFits, said_entered, kept_of_found, outcome, filled_from, ReadyBy};

use elements::element::{
    Cut, Element, State, after, came_known, came_unknown, header, iei_of, place_by,
};
use elements::next::start_state;
use elements::walk::Tally;
use kept::put_raw;
use order::{Placed, entry_len, put_placed};
use rows::columns::{form_of, numbers_at};
use rows::lent::put_row;

// The row of an accepted element, which has a place: received, where its value is, and its IEI.
fn enter_row(rows: &mut [u32], table: &[u32], e: Element)
    requires { SaidFits table.now e rows.old }
    ensures { rows.new ≡ said_entered table.now e rows.old }
{
    let Placed::Known(iei) = e.placed else {
        return;
    };
    let Some(place) = e.place else {
        return;
    };
    let row = numbers_at(table, place);
    let h = header(form_of(row.code, row.size));
    let start = (e.start + h) as u32;
    let len = (e.len - h) as u32;
    put_row(rows, 4 * place, [1, start, len, u32::from(iei)]);
}

// An element that no row took, into the rest of the kept log; the octets then used.
fn keep(octets: &[u8], e: Element, kept: &mut [u8], used: usize) -> usize
    requires { (e.start + e.len ≤ length octets.now) × (1 ≤ e.len) × (e.len ≤ 65535) × (used + length (kept_of_found e octets.now) ≤ length kept.old) }
    ensures { (result ≡ used + length (kept_of_found e octets.now)) × (kept.new ≡ over_at used (kept_of_found e octets.now) kept.old) }
{
    let start = e.start;
    let end = start + e.len;
    match e.placed {
        Placed::Known(_) => used,
        Placed::Unknown | Placed::Ignored(_) => keep_octets(&octets[start..end], kept, used),
    }
}

// The octets of an element behind their count; the octets then used. One and two, as many elements have, are stored here.
fn keep_octets(element: &[u8], kept: &mut [u8], used: usize) -> usize
    requires { (1 ≤ length element.now) × (length element.now ≤ 65535) × (used + length (kept_entry element.now) ≤ length kept.old) }
    ensures { (result ≡ used + length (kept_entry element.now)) × (kept.new ≡ over_at used (kept_entry element.now) kept.old) }
{
    if element.len() == 1 {
        kept[used] = 1;
        kept[used + 1] = element[0];
        return used + 2;
    }
    if element.len() == 2 {
        kept[used] = 2;
        kept[used + 1] = element[0];
        kept[used + 2] = element[1];
        return used + 3;
    }
    used + put_raw(&mut kept[used..], element)
}

// How an element came, into the rest of the order log; the octets then used.
fn note(placed: Placed, order: &mut [u8], used: usize) -> usize
    requires { used + length (order_entry (placed_as placed)) ≤ length order.old }
    ensures { (result ≡ used + length (order_entry (placed_as placed))) × (order.new ≡ over_at used (order_entry (placed_as placed)) order.old) }
{
    put_placed(&mut order[used..], placed);
    used + entry_len(placed)
}

// Every element of a part, into rows and logs that have room, each with an entry; the octets then used of each log, or the unknown
// element that is cut short.
pub(crate) fn fill_elements(
    octets: &[u8],
    table: &[u32],
    index: &[u8; 256],
    tlve_start: u8,
    option: bool,
    rows: &mut [u32],
    kept: &mut [u8],
    order: &mut [u8],
) -> Result<Tally, Cut>
    requires { ReadyBy table.now index.now tlve_start option octets.now rows.old kept.old order.old }
    ensures { outcome result rows.new kept.new order.new ≡ filled_from (rows_by table.now index.now) (parted (rows_by table.now index.now) tlve_start option octets.now) 0 0 rows.old kept.old order.old }
{
    let mut state = start_state();
    let mut used = Tally { kept: 0, order: 0 };
    while state.at < octets.len() {
        let start = state.at;
        let x = octets[start];
        let iei = iei_of(x);
        let left = &octets[start..];
        let place = place_by(index, iei);
        let came = match place {
            Some(place) => {
                let row = numbers_at(table, place);
                let again = state.seen.has(place);
                came_known(left, row, iei, option, again, place < state.highest)
            }
            None => came_unknown(left, x, tlve_start).map_err(|cut| Cut {
                start,
                first: x,
                left: left.len(),
                missing: cut.missing,
            })?,
        };
        let len = came.len;
        let placed = came.placed;
        let element = Element {
            start,
            len,
            iei,
            place,
            placed,
        };
        enter_row(rows, table, element);
        used = Tally {
            kept: keep(octets, element, kept, used.kept),
            order: note(placed, order, used.order),
        };
        state = after(state, place, start + len);
    }
    Ok(used)
}
