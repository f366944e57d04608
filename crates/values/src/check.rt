// The checks that showing, setting and clearing share: the table, the octets, the rows, and whether the table has the place.
ghost use Rattle.std.specs.Prelude.{◌≡◌, ◌||◌};
ghost use Rattle.std.proofs.Math.Option.{none};
ghost use Rattle.definitions.specs.Basic.{refusal, content};
ghost use Rattle.definitions.specs.Rows.{rows_of, first_bad};
ghost use Rattle.definitions.specs.Values.{room_checks, bad_place, place_checks};
ghost use Rattle.kept.specs.Kept.{used_of};
ghost use Rattle.values.specs.Rows.{sources_of};
ghost use Rattle.values.specs.Checks.{place_check_as, long_with};

use crate::row::any_bad;
use checks::{BadRow, check_table};
use octets::{MOST_OCTETS, part};
use rows::columns::places;

// The first refusal of the checks.
#[derive(Clone, Copy, PartialEq, Eq)]
pub enum PlaceError {
    BadTable(usize),
    TooLong,
    NoRoom,
    Malformed,
}

impl From<BadRow> for PlaceError {
    ghost use Rattle.values.specs.declared.check.PlaceError.{PlaceError};

    ghost from_gives = { λ bad e. e ≡ PlaceError.BadTable bad.0 };

    fn from(bad: BadRow) -> PlaceError {
        PlaceError::BadTable(bad.0)
    }
}

// Whether received or set octets are too long, or the set octets would be with so many more; or a used count above its buffer.
pub fn too_long(received: &[u8], set: &[u8], used: usize, more: usize) -> bool
    ensures { result ≡ long_with received.now (used_of set.now used) more }
{
    received.len() > MOST_OCTETS
        || used > set.len()
        || used > MOST_OCTETS
        || more > MOST_OCTETS - used
}

// The checks before the rows, under a table that passes.
fn rows_room(
    table: &[u32],
    rows: &[u32],
    received: &[u8],
    set: &[u8],
    used: usize,
    more: usize,
    long: bool,
) -> Result<(), PlaceError>
    requires { first_bad (rows_of table.now) ≡ none }
    ensures { place_check_as result ≡ refusal (room_checks (rows_of table.now) (long || long_with received.now (used_of set.now used) more) rows.now) }
{
    if long || too_long(received, set, used, more) {
        return Err(PlaceError::TooLong);
    }
    if rows.len() < 4 * places(table) {
        return Err(PlaceError::NoRoom);
    }
    Ok(())
}

// In document 01's order: the table; the octets, with so many set octets more, or what else is too long; room for the rows.
pub fn check_room(
    table: &[u32],
    rows: &[u32],
    received: &[u8],
    set: &[u8],
    used: usize,
    more: usize,
    long: bool,
) -> Result<(), PlaceError>
    ensures { place_check_as result ≡ refusal (room_checks (rows_of table.now) (long || long_with received.now (used_of set.now used) more) rows.now) }
{
    check_table(table)?;
    rows_room(table, rows, received, set, used, more, long)
}

// Whether a row is malformed, or a place is not in the table.
pub fn bad_place(table: &[u32], rows: &[u32], received: &[u8], set: &[u8], place: usize) -> bool
    ensures { result ≡ bad_place (rows_of table.now) (sources_of received.now set.now) rows.now place }
{
    let n = places(table);
    any_bad(rows, true, n, received, set) || place >= n
}

// The checks of showing and clearing, which see no log: those before the rows, then every row and the place.
pub fn check_place(
    table: &[u32],
    rows: &[u32],
    received: &[u8],
    set: &[u8],
    used: usize,
    place: usize,
) -> Result<(), PlaceError>
    ensures { place_check_as result ≡ refusal (place_checks (rows_of table.now) (long_with received.now (used_of set.now used) 0) (sources_of received.now (content (used_of set.now used))) rows.now place) }
{
    check_room(table, rows, received, set, used, 0, false)?;
    if bad_place(table, rows, received, part(set, 0, used), place) {
        return Err(PlaceError::Malformed);
    }
    Ok(())
}
