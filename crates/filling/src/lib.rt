// What reading writes of a part by a table and any index, with an entry in the order log for each element: into arrays of a caller's
// own, and into lent memory once it is known that there is room.
#![tactic(auto)]

mod fill;

ghost use Rattle.std.specs.Prelude.{◌≡◌, length};
ghost use Rattle.definitions.specs.Reading.{Lent};
ghost use Rattle.filling.specs.Decodes.{lent_of, Reads};
ghost use Rattle.filling.specs.Noted.{Judged, noted};
ghost use Rattle.filling.specs.Filled.{Leaves, filling};

use crate::fill::fill_elements;
use checks::BadRow;
use elements::element::Cut;
use elements::walk::Tally;
use measuring::{may_hold, measure};
use octets::MOST_OCTETS;
use plain_reading::{clear_all, clear_rows};
use rows::columns::places;

// What a refusal for want of room names.
#[derive(Clone, Copy, PartialEq, Eq)]
pub enum Room {
    Rows,
    Kept,
    Order,
}

// Why reading refuses a part.
#[derive(Clone, Copy, PartialEq, Eq)]
pub enum DecodeError {
    CutShort(Cut),
    NoRoom(Room),
    TooLong,
    BadTable(usize),
    NoTable,
}

impl From<Cut> for DecodeError {
    ghost use Rattle.filling.specs.declared.DecodeError.{DecodeError};

    ghost from_gives = { λ cut e. e ≡ DecodeError.CutShort cut };

    fn from(cut: Cut) -> DecodeError {
        DecodeError::CutShort(cut)
    }
}

impl From<BadRow> for DecodeError {
    ghost use Rattle.filling.specs.declared.DecodeError.{DecodeError};

    ghost from_gives = { λ bad e. e ≡ DecodeError.BadTable bad.0 };

    fn from(bad: BadRow) -> DecodeError {
        DecodeError::BadTable(bad.0)
    }
}

// What reading answers: the octets used of the kept log and the order log, or a refusal.
pub type Decoded = Result<Tally, DecodeError>;

// Why arrays are not filled: an unknown element is cut short, or they may not hold all.
#[derive(Clone, Copy, PartialEq, Eq)]
pub enum FillError {
    CutShort(Cut),
    NoRoom,
}

// Every element of a part, into rows and logs that hold what any part of its length needs. Where it is cut short they are cleared.
pub fn fill_over(
    octets: &[u8],
    table: &[u32],
    index: &[u8; 256],
    tlve_start: u8,
    option: bool,
    rows: &mut [u32],
    kept: &mut [u8],
    order: &mut [u8],
) -> Result<Tally, FillError>
    ensures { Leaves (filling table.now index.now tlve_start option octets.now (lent_of rows.old kept.old order.old)) result rows.new kept.new order.new }
{
    if !may_hold(octets.len(), table, rows.len(), kept.len(), order.len()) {
        return Err(FillError::NoRoom);
    }
    match fill_elements(octets, table, index, tlve_start, option, rows, kept, order) {
        Ok(used) => Ok(used),
        Err(cut) => {
            clear_all(rows, kept, order);
            Err(FillError::CutShort(cut))
        }
    }
}

// What a part needs of the logs, or why it is refused, with rows and logs of so many numbers.
fn judge(
    octets: &[u8],
    table: &[u32],
    index: &[u8; 256],
    tlve_start: u8,
    option: bool,
    rows: usize,
    kept: usize,
    order: usize,
) -> Decoded
    ensures { (l : Lent) → length l.rows ≡ rows → length l.kept ≡ kept → length l.order ≡ order → Judged table.now index.now tlve_start option octets.now l result }
{
    if octets.len() > MOST_OCTETS {
        return Err(DecodeError::TooLong);
    }
    if rows / 4 < places(table) {
        return Err(DecodeError::NoRoom(Room::Rows));
    }
    let needs = measure(octets, table, index, tlve_start, option)?;
    if kept < needs.kept {
        return Err(DecodeError::NoRoom(Room::Kept));
    }
    if order < needs.order {
        return Err(DecodeError::NoRoom(Room::Order));
    }
    Ok(needs)
}

// A part of any length: what it needs of the logs, then what is written.
pub fn fill_measured(
    octets: &[u8],
    table: &[u32],
    index: &[u8; 256],
    tlve_start: u8,
    option: bool,
    rows: &mut [u32],
    kept: &mut [u8],
    order: &mut [u8],
) -> Decoded
    ensures { Reads (noted table.now index.now tlve_start option octets.now (lent_of rows.old kept.old order.old)) result rows.new kept.new order.new }
{
    let needs = judge(
        octets,
        table,
        index,
        tlve_start,
        option,
        rows.len(),
        kept.len(),
        order.len(),
    )?;
    clear_rows(rows, 4 * places(table));
    let _ = fill_elements(octets, table, index, tlve_start, option, rows, kept, order);
    Ok(needs)
}
