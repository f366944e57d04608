// Showing the value of a place: where its row says it is, after the checks of the table and of every row.
ghost use Rattle.std.specs.Prelude.{◌≡◌, ◌%◌, get_or};
ghost use Rattle.definitions.specs.Values.{showing};
ghost use Rattle.kept.specs.Kept.{used_of};
ghost use Rattle.rows.specs.Forms.{form_as};
ghost use Rattle.values.specs.Shows.{show_error, shown_as, shown_row};
ghost use Rattle.values.specs.Rows.{sources_of, value_of};

use crate::check::{PlaceError, check_place};
use crate::row::{ValueRow, does_fit, row_at, value_octets};
use octets::part;
use rows::columns::{Form, form_at};

// What a present place shows: the four bits of a half octet and its IEI, or the row that says where the value is.
#[derive(Clone, Copy, PartialEq, Eq)]
pub enum Shown {
    Half(u8, u32),
    Value(ValueRow),
}

// Why nothing can be shown.
#[derive(Clone, Copy, PartialEq, Eq)]
pub enum ShowError {
    BadTable(usize),
    TooLong,
    NoRoom,
    Malformed,
    Unfit(usize),
}

impl From<PlaceError> for ShowError {
    ghost from_gives = { λ e s. s ≡ show_error e };

    fn from(error: PlaceError) -> ShowError {
        match error {
            PlaceError::BadTable(row) => ShowError::BadTable(row),
            PlaceError::TooLong => ShowError::TooLong,
            PlaceError::NoRoom => ShowError::NoRoom,
            PlaceError::Malformed => ShowError::Malformed,
        }
    }
}

// The four bits of a half octet; 0 of no octet.
fn bits_of(value: &[u8]) -> u8
    ensures { result ≡ get_or value.now 0 0 % 16 }
{
    value.first().copied().unwrap_or(0) % 16
}

// A row of a form, shown.
fn show_row<'a>(
    form: Form,
    row: ValueRow,
    received: &'a [u8],
    set: &'a [u8],
    place: usize,
) -> Result<Option<Shown>, ShowError>
    ensures { shown_as result ≡ shown_row (form_as form) (sources_of received.now set.now) (value_of row) place }
{
    if row.source == 0 {
        return Ok(None);
    }
    let value = value_octets(received, set, row);
    if !does_fit(form, row.source, value) {
        return Err(ShowError::Unfit(place));
    }
    match form {
        Form::Half => Ok(Some(Shown::Half(bits_of(value), row.iei))),
        Form::Fixed(_) | Form::Tlv | Form::TlvE => Ok(Some(Shown::Value(row))),
    }
}

// The value of a place, None where it is absent: its row is read from the lent rows; the received octets, and the set octets that are used.
pub fn show<'a>(
    table: &[u32],
    rows: &[u32],
    received: &'a [u8],
    set: &'a [u8],
    used: usize,
    place: usize,
) -> Result<Option<Shown>, ShowError>
    ensures { shown_as result ≡ showing table.now rows.now received.now (used_of set.now used) place }
{
    check_place(table, rows, received, set, used, place)?;
    show_row(
        form_at(table, place),
        row_at(rows, place),
        received,
        part(set, 0, used),
        place,
    )
}
