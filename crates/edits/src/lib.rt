// Editing the rows of places: a value is set behind the set octets that are used, or a place is made absent. No log is touched; setting
// is handed the order log for the IEI of the place.
#![tactic(auto)]

mod log;

ghost use Rattle.std.specs.Prelude.{◌≡◌, ◌+◌, ◌*◌, ◌≤◌, length};
ghost use Rattle.definitions.specs.Rows.{rows_of};
ghost use Rattle.definitions.specs.Values.{setting, clearing};
ghost use Rattle.kept.specs.Kept.{used_of};
ghost use Rattle.rows.specs.Forms.{form_as};
ghost use Rattle.edits.specs.Edits.{edit_error, Edits, set_by, set_logged, Behind};

use crate::log::judge;
use copying::put_slice;
use indexing::index::iei_index;
use kept::{MOST_LOG, too_long};
use octets::part;
use order::order_malformed;
use rows::columns::{Form, form_at};
use rows::lent::put_row;
use values::check::{PlaceError, bad_place, check_place, check_room};
use values::row::does_fit;

// Why an edit is refused; set octets that are too few would have to be so many.
#[derive(Clone, Copy, PartialEq, Eq)]
pub enum EditError {
    BadTable(usize),
    TooLong,
    NoRoom,
    MalformedLog,
    Malformed,
    Unfit(usize),
    NoSet(usize),
}

impl From<PlaceError> for EditError {
    ghost from_gives = { λ error e. e ≡ edit_error error };

    fn from(error: PlaceError) -> EditError {
        match error {
            PlaceError::BadTable(row) => EditError::BadTable(row),
            PlaceError::TooLong => EditError::TooLong,
            PlaceError::NoRoom => EditError::NoRoom,
            PlaceError::Malformed => EditError::Malformed,
        }
    }
}

// What an edit answers: the set octets then used, None of a place that is cleared; or a refusal.
pub type Edited = Result<Option<usize>, EditError>;

// A value of a form under an IEI, behind the checks before it.
fn set_value(
    form: Form,
    rows: &mut [u32],
    set: &mut [u8],
    used: usize,
    place: usize,
    iei: u32,
    value: &[u8],
) -> Edited
    requires { (4 * place + 4 ≤ length rows.old) × (used ≤ length set.old) × (used + length value.now ≤ 65535) }
    ensures { Edits (set_by (form_as form) rows.old (used_of set.old used) place iei value.now) result rows.new set.new }
{
    if !does_fit(form, 2, value) {
        return Err(EditError::Unfit(place));
    }
    let after = used + value.len();
    if after > set.len() {
        return Err(EditError::NoSet(after));
    }
    put_slice(&mut set[used..], value);
    put_row(rows, 4 * place, [2, used as u32, value.len() as u32, iei]);
    Ok(Some(after))
}

// Behind the checks before the rows: the order log, which is used to its end, the rows and the place, the rows beside the log.
fn set_logged(
    table: &[u32],
    rows: &mut [u32],
    received: &[u8],
    set: &mut [u8],
    used: usize,
    order: &[u8],
    place: usize,
    value: &[u8],
) -> Edited
    requires { Behind table.now rows.old set.old used order.now value.now }
    ensures { Edits (set_logged (rows_of table.now) rows.old received.now (used_of set.old used) order.now place value.now) result rows.new set.new }
{
    if order_malformed(order) {
        return Err(EditError::MalformedLog);
    }
    if bad_place(table, rows, received, part(set, 0, used), place) {
        return Err(EditError::Malformed);
    }
    let Some(iei) = judge(table, &iei_index(table), rows, order, place) else {
        return Err(EditError::Malformed);
    };
    set_value(form_at(table, place), rows, set, used, place, iei, value)
}

// A value for a place: it goes behind the set octets that are used, and the row points there, with the IEI that the order log gives.
pub fn set_place(
    table: &[u32],
    rows: &mut [u32],
    received: &[u8],
    set: &mut [u8],
    used: usize,
    order: &[u8],
    order_used: usize,
    place: usize,
    value: &[u8],
) -> Edited
    ensures { Edits (setting table.now rows.old received.now (used_of set.old used) (used_of order.now order_used) place value.now) result rows.new set.new }
{
    let long = too_long(order, order_used, MOST_LOG);
    check_room(table, rows, received, set, used, value.len(), long)?;
    set_logged(
        table,
        rows,
        received,
        set,
        used,
        &order[..order_used],
        place,
        value,
    )
}

// A place without a value: its row is four times 0.
pub fn clear_place(
    table: &[u32],
    rows: &mut [u32],
    received: &[u8],
    set: &[u8],
    used: usize,
    place: usize,
) -> Edited
    ensures { Edits (clearing table.now rows.old received.now (used_of set.now used) place) result rows.new set.now }
{
    check_place(table, rows, received, set, used, place)?;
    put_row(rows, 4 * place, [0; 4]);
    Ok(None)
}
