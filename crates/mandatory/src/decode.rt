// Reading mandatory rows: first what is wrong with them, then what they leave in the lent rows.
ghost use Rattle.std.specs.Prelude.{◌≡◌, [], ◌*◌, ◌≤◌, length, Err};
ghost use Rattle.std.proofs.Math.Option.{none};
ghost use Rattle.definitions.specs.Basic.{over};
ghost use Rattle.definitions.specs.Mandatory.{mandatory_rows_of, first_bad_mandatory, mandatory_reading};
ghost use Rattle.mandatory.specs.Notes.{no_notes};
ghost use Rattle.mandatory.specs.Reads.{lacks, refused_by, judged_row, found_in, judged_from, rows_from, Judges, Reads};

use crate::notes::{Notes, no_notes, with_fault};
use checks::check_mandatory_table;
use mandatory_ie::{Fault, Found, Lacking, decode_mandatory_ie};
use octets::MOST_OCTETS;
use rows::columns::mandatory_rows;
use rows::lent::put_row;

// Why mandatory rows are not read; the row that is refused counts from 0.
#[derive(Clone, Copy, PartialEq, Eq)]
pub enum MandatoryError {
    NoRoom,
    TooLong,
    BadTable(usize),
    NoTable,
    Missing(usize),
    Truncated(usize),
    TooShort(usize),
    Syntax(usize),
}

// The octets read or a refusal, with the notes of lenient reading up to there.
#[derive(Clone, Copy)]
pub struct MandatoryRead {
    pub answer: Result<usize, MandatoryError>,
    pub notes: Notes,
}

// The refusal of a row that has no value.
fn lacks(lacking: Lacking, row: usize) -> MandatoryError
    ensures { result ≡ lacks lacking row }
{
    match lacking {
        Lacking::Missing => MandatoryError::Missing(row),
        Lacking::Truncated => MandatoryError::Truncated(row),
    }
}

// The refusal of a row by its fault: strict, any refuses; lenient, none.
fn refused_by(lenient: bool, fault: Fault, row: usize) -> Option<MandatoryError>
    ensures { result ≡ refused_by lenient fault row }
{
    match fault {
        _ if lenient => None,
        Fault::TooShort => Some(MandatoryError::TooShort(row)),
        Fault::Syntax => Some(MandatoryError::Syntax(row)),
    }
}

// What a row finds, or why that ends the reading.
fn judge_row(left: &[u8], table: &[u32], lenient: bool, row: usize) -> Result<Found, MandatoryError>
    ensures { result ≡ judged_row lenient row (found_in (mandatory_rows_of table.now) row left.now) }
{
    let found = decode_mandatory_ie(left, table, row).map_err(|lacking| lacks(lacking, row))?;
    match found
        .fault
        .and_then(|fault| refused_by(lenient, fault, row))
    {
        Some(error) => Err(error),
        None => Ok(found),
    }
}

// Row by row, with nothing written: the refusal or the octets read, and the notes.
fn judge(part: &[u8], table: &[u32], lenient: bool) -> MandatoryRead
    requires { length (mandatory_rows_of table.now) ≤ 32 }
    ensures { Judges (judged_from lenient 0 0 (mandatory_rows_of table.now) part.now []) result }
{
    let mut at = 0;
    let mut notes = no_notes();
    for row in 0..mandatory_rows(table) {
        match judge_row(&part[at..], table, lenient, row) {
            Err(error) => {
                return MandatoryRead {
                    answer: Err(error),
                    notes,
                };
            }
            Ok(found) => {
                notes = with_fault(notes, row, found.fault);
                at += found.took;
            }
        }
    }
    MandatoryRead {
        answer: Ok(at),
        notes,
    }
}

// Each row's value into the lent rows, up to a row that has none.
fn fill(part: &[u8], table: &[u32], rows: &mut [u32])
    requires { (3 * length (mandatory_rows_of table.now) ≤ length rows.old) × (length part.now ≤ 65535) }
    ensures { rows.new ≡ over (rows_from 0 (mandatory_rows_of table.now) part.now) rows.old }
{
    let mut at = 0;
    for row in 0..mandatory_rows(table) {
        let Ok(found) = decode_mandatory_ie(&part[at..], table, row) else {
            return;
        };
        put_row(
            rows,
            3 * row,
            [1, (at + found.start) as u32, found.len as u32],
        );
        at += found.took;
    }
}

// A refusal for a reason that no row gives has no notes.
pub(crate) fn unread(error: MandatoryError) -> MandatoryRead
    ensures { result ≡ record { answer = Err error; notes = no_notes } }
{
    MandatoryRead {
        answer: Err(error),
        notes: no_notes(),
    }
}

// By a table that passes its check.
pub(crate) fn decode_checked(
    part: &[u8],
    table: &[u32],
    lenient: bool,
    rows: &mut [u32],
) -> MandatoryRead
    requires { first_bad_mandatory (mandatory_rows_of table.now) ≡ none }
    ensures { Reads (mandatory_reading table.now lenient part.now rows.old) result rows.new }
{
    if part.len() > MOST_OCTETS {
        return unread(MandatoryError::TooLong);
    }
    if rows.len() < 3 * mandatory_rows(table) {
        return unread(MandatoryError::NoRoom);
    }
    let read = judge(part, table, lenient);
    if read.answer.is_ok() {
        fill(part, table, rows);
    }
    read
}

// By a lent table; lenient, a value under the least length or not receivable is noted and kept.
pub fn decode_mandatory_ies(
    part: &[u8],
    table: &[u32],
    lenient: bool,
    rows: &mut [u32],
) -> MandatoryRead
    ensures { Reads (mandatory_reading table.now lenient part.now rows.old) result rows.new }
{
    match check_mandatory_table(table) {
        Ok(()) => decode_checked(part, table, lenient, rows),
        Err(bad) => unread(MandatoryError::BadTable(bad.0)),
    }
}
