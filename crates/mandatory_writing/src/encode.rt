// Writing mandatory rows: the checks, the octets needed, then the rows.
ghost use Rattle.std.specs.Prelude.{◌≡◌, not, ◌≤◌, length};
ghost use Rattle.std.proofs.Math.Option.{none};
ghost use Rattle.definitions.specs.Basic.{is_none, over};
ghost use Rattle.definitions.specs.Mandatory.{mandatory_rows_of, mandatory_row_at, first_bad_mandatory, rows_written, mandatory_writing};
ghost use Rattle.definitions.specs.Values.{mandatory_width, value_in, present, first_from};
ghost use Rattle.kept.specs.Kept.{used_of};
ghost use Rattle.values.specs.Rows.{sources_of};
ghost use Rattle.mandatory_writing.specs.Writes.{fits_at, size_at, size_from, misfit_as, misfit_in, Short, Ready, wrote_by, Writes};

use crate::row::{encoded_size, fits_mandatory, low_bits, put_row};
use checks::{BadRow, check_mandatory_table};
use octets::part;
use rows::columns::{mandatory_form_at, mandatory_rows};
use values::check::too_long;
use values::row::{any_bad, mandatory_row_at, value_octets};

// Why mandatory rows are not written; the row that does not fit counts from 0, and an output that is too short needs so many octets.
#[derive(Clone, Copy, PartialEq, Eq)]
pub enum MandatoryWriteError {
    NoRoom,
    TooLong,
    BadTable(usize),
    NoTable,
    Unfit(usize),
    Malformed,
    OutputShort(usize),
}

impl From<BadRow> for MandatoryWriteError {
    ghost use Rattle.mandatory_writing.specs.declared.encode.MandatoryWriteError.{MandatoryWriteError};

    ghost from_gives = { λ bad e. e ≡ MandatoryWriteError.BadTable bad.0 };

    fn from(bad: BadRow) -> MandatoryWriteError {
        MandatoryWriteError::BadTable(bad.0)
    }
}

// Whether a row of the first n is absent.
fn any_absent(rows: &[u32], n: usize) -> bool
    ensures { result ≡ not (is_none (first_from (λ k. not (present (value_in mandatory_width rows.now k))) 0 n)) }
{
    for k in 0..n {
        let row = mandatory_row_at(rows, k);
        if row.source == 0 {
            return true;
        }
    }
    false
}

// Whether the value of a row fits its form.
fn row_fits<'a>(table: &[u32], rows: &[u32], received: &'a [u8], set: &'a [u8], k: usize) -> bool
    ensures { result ≡ fits_at (mandatory_rows_of table.now) (sources_of received.now set.now) rows.now k }
{
    let row = mandatory_row_at(rows, k);
    fits_mandatory(
        mandatory_form_at(table, k),
        row.source,
        value_octets(received, set, row),
    )
}

// The lowest row whose value does not fit, if there is one.
fn first_misfit<'a>(
    table: &[u32],
    rows: &[u32],
    received: &'a [u8],
    set: &'a [u8],
    n: usize,
) -> Option<usize>
    ensures { misfit_as result ≡ misfit_in (mandatory_rows_of table.now) (sources_of received.now set.now) rows.now 0 n }
{
    for k in 0..n {
        if !row_fits(table, rows, received, set, k) {
            return Some(k);
        }
    }
    None
}

// How many octets a row is written as.
fn row_size<'a>(table: &[u32], rows: &[u32], received: &'a [u8], set: &'a [u8], k: usize) -> usize
    requires { Short received.now set.now }
    ensures { (result ≡ size_at (mandatory_row_at (mandatory_rows_of table.now) k) (sources_of received.now set.now) rows.now k) × (result ≤ 65537) }
{
    let row = mandatory_row_at(rows, k);
    let value = value_octets(received, set, row);
    encoded_size(mandatory_form_at(table, k), value.len())
}

// How many octets the rows are written as.
fn octets_needed<'a>(table: &[u32], rows: &[u32], received: &'a [u8], set: &'a [u8]) -> usize
    requires { Short received.now set.now × (length (mandatory_rows_of table.now) ≤ 32) }
    ensures { result ≡ size_from (sources_of received.now set.now) rows.now 0 (mandatory_rows_of table.now) }
{
    let mut size = 0;
    for k in 0..mandatory_rows(table) {
        size += row_size(table, rows, received, set, k);
    }
    size
}

// The rows one after the other, into an output that has room for them; a low half waits for its high half.
fn write_rows<'a>(table: &[u32], rows: &[u32], received: &'a [u8], set: &'a [u8], output: &mut [u8])
    requires { Ready (mandatory_rows_of table.now) received.now set.now rows.now output.old }
    ensures { output.new ≡ over (rows_written (sources_of received.now set.now) rows.now 0 0 (mandatory_rows_of table.now)) output.old }
{
    let mut at = 0;
    let mut low = 0u8;
    for k in 0..mandatory_rows(table) {
        let row = mandatory_row_at(rows, k);
        let value = value_octets(received, set, row);
        let form = mandatory_form_at(table, k);
        put_row(&mut output[at..], form, low, row.source, value);
        at += encoded_size(form, value.len());
        low = low_bits(value);
    }
}

// After the checks of the table and of what is lent: the rows, their values, the output.
fn encode_octets<'a>(
    table: &[u32],
    rows: &[u32],
    received: &'a [u8],
    set: &'a [u8],
    output: &mut [u8],
) -> Result<usize, MandatoryWriteError>
    requires { Short received.now set.now × (length (mandatory_rows_of table.now) ≤ 32) }
    ensures { Writes (wrote_by (mandatory_rows_of table.now) (sources_of received.now set.now) rows.now output.old) result output.new }
{
    let n = mandatory_rows(table);
    if any_bad(rows, false, n, received, set) {
        return Err(MandatoryWriteError::Malformed);
    }
    if any_absent(rows, n) {
        return Err(MandatoryWriteError::Malformed);
    }
    if let Some(k) = first_misfit(table, rows, received, set, n) {
        return Err(MandatoryWriteError::Unfit(k));
    }
    let size = octets_needed(table, rows, received, set);
    if output.len() < size {
        return Err(MandatoryWriteError::OutputShort(size));
    }
    write_rows(table, rows, received, set, output);
    Ok(size)
}

// By a table that passes its check.
pub(crate) fn encode_checked<'a>(
    table: &[u32],
    rows: &[u32],
    received: &'a [u8],
    set: &'a [u8],
    set_used: usize,
    output: &mut [u8],
) -> Result<usize, MandatoryWriteError>
    requires { first_bad_mandatory (mandatory_rows_of table.now) ≡ none }
    ensures { Writes (mandatory_writing table.now rows.now received.now (used_of set.now set_used) output.old) result output.new }
{
    if too_long(received, set, set_used, 0) {
        return Err(MandatoryWriteError::TooLong);
    }
    if rows.len() < 3 * mandatory_rows(table) {
        return Err(MandatoryWriteError::NoRoom);
    }
    encode_octets(table, rows, received, part(set, 0, set_used), output)
}

// By a lent table: the lent rows, the received octets, and the set octets that are used.
pub fn encode_mandatory_ies<'a>(
    table: &[u32],
    rows: &[u32],
    received: &'a [u8],
    set: &'a [u8],
    set_used: usize,
    output: &mut [u8],
) -> Result<usize, MandatoryWriteError>
    ensures { Writes (mandatory_writing table.now rows.now received.now (used_of set.now set_used) output.old) result output.new }
{
    check_mandatory_table(table)?;
    encode_checked(table, rows, received, set, set_used, output)
}
