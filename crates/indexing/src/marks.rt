// Entering the IEIs of a row in an index, for the check and for the index itself: each entry goes to the first row that lists it.
ghost use Rattle.std.specs.Prelude.{◌≡◌, true, ◌&&◌, eqb};
ghost use Rattle.definitions.specs.Rows.{rows_of, row_at, ieis, good_iei};
ghost use Rattle.indexing.specs.Marks.{free, enter, enters, enter_row, mark_of};

use rows::columns::{code_at, iei_count, slot_at};
use rows::index::NO_PLACE;

// An IEI that a row may list.
pub fn good_iei(half: bool, iei: u32) -> bool
    ensures { result ≡ good_iei half iei }
{
    if half {
        (128..=255).contains(&iei) && iei.is_multiple_of(16)
    } else {
        iei <= 127
    }
}

// An IEI entered, where its entry is free, which is 255; whether it was.
pub fn enter_free(index: &mut [u8], iei: u32, mark: u8) -> bool
    ensures { (result ≡ free index.old iei) × (index.new ≡ enter mark iei index.old) }
{
    let at = iei as usize;
    match index.get(at) {
        Some(&entry) if entry == NO_PLACE => {
            index[at] = mark;
            true
        }
        _ => false,
    }
}

// The same, and whether the row may list it.
fn enter_iei(index: &mut [u8], half: bool, iei: u32, mark: u8) -> bool
    ensures { (result ≡ (good_iei half iei && free index.old iei)) × (index.new ≡ enter mark iei index.old) }
{
    let was = enter_free(index, iei, mark);
    good_iei(half, iei) && was
}

// The mark of a place.
pub fn mark_of(place: usize) -> u8
    ensures { result ≡ mark_of place }
{
    u8::try_from(place).unwrap_or(NO_PLACE)
}

// The IEIs of a row entered under its place; whether the row may list each, and each was free.
pub fn enter_row(table: &[u32], place: usize, index: &mut [u8]) -> bool
    ensures { (result ≡ enters (eqb (row_at (rows_of table.now) place).code 0) (mark_of place) (ieis (row_at (rows_of table.now) place)) index.old) × (index.new ≡ enter_row place (row_at (rows_of table.now) place) index.old) }
{
    let half = code_at(table, place) == 0;
    let mark = mark_of(place);
    let mut good = true;
    for j in 0..iei_count(table, place) {
        good &= enter_iei(index, half, slot_at(table, place, j), mark);
    }
    good
}
