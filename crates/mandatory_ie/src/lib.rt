// One mandatory row: what it finds at the front of the octets left.
#![tactic(auto)]

ghost use Rattle.std.specs.Prelude.{◌≡◌, [], ◌∷◌};
ghost use Rattle.std.proofs.Math.Option.{none, some};
ghost use Rattle.definitions.specs.Basic.{pick};
ghost use Rattle.definitions.specs.Octets.{number_at};
ghost use Rattle.definitions.specs.Mandatory.{mandatory_rows_of, mandatory_row_at, mandatory_form, behind, counted, found_by, fault_of, value};
ghost use Rattle.mandatory_ie.specs.Founds.{fault_as, found_as};

use elements::element::receivable;
use octets::Cursor;
use rows::columns::{
    MandatoryForm, mandatory_code_at, mandatory_form_at, mandatory_kinds_at, mandatory_least_at,
};

// What is wrong with a complete value: it is under the least length, or not receivable.
#[derive(Clone, Copy, PartialEq, Eq)]
pub enum Fault {
    TooShort,
    Syntax,
}

// Why a row finds no value: there is no octet, or one is begun and cut.
#[derive(Clone, Copy, PartialEq, Eq)]
pub enum Lacking {
    Missing,
    Truncated,
}

// A value: where it starts, counted from here, its length, how many octets the row consumes, and what is wrong with it.
#[derive(Clone, Copy, PartialEq, Eq)]
pub struct Found {
    pub start: usize,
    pub len: usize,
    pub took: usize,
    pub fault: Option<Fault>,
}

// By whether a complete value is under the least length, and whether it is not receivable: the first fault that it has.
fn first_fault(short: bool, strange: bool) -> Option<Fault>
    ensures { result ≡ fault_as (pick short (some 8) (pick strange (some 9) none)) }
{
    if short {
        return Some(Fault::TooShort);
    }
    if strange {
        return Some(Fault::Syntax);
    }
    None
}

// A complete value of a row that consumes so many octets, by the octets that it is judged by.
fn fault_of(table: &[u32], row: usize, took: usize, value: &[u8]) -> Option<Fault>
    ensures { result ≡ fault_as (fault_of (mandatory_row_at (mandatory_rows_of table.now) row) took value.now) }
{
    let least = mandatory_least_at(table, row);
    let half = mandatory_code_at(table, row) <= 1;
    let kinds = mandatory_kinds_at(table, row);
    first_fault(took < least, !receivable(half, kinds, value))
}

// A value of n octets behind h octets.
fn behind(table: &[u32], row: usize, h: usize, n: usize, left: &[u8]) -> Result<Found, Lacking>
    ensures { result ≡ found_as (mandatory_row_at (mandatory_rows_of table.now) row) (behind h n left.now) }
{
    let rest = left.len().checked_sub(h).ok_or(Lacking::Truncated)?;
    if n > rest {
        return Err(Lacking::Truncated);
    }
    let end = h + n;
    Ok(Found {
        start: h,
        len: n,
        took: end,
        fault: fault_of(table, row, end, &left[h..end]),
    })
}

// A value behind a length field of two octets.
fn behind_pair(table: &[u32], row: usize, left: &[u8]) -> Result<Found, Lacking>
    ensures { result ≡ found_as (mandatory_row_at (mandatory_rows_of table.now) row) (counted 2 left.now (number_at 2 0 left.now)) }
{
    let (n, _) = Cursor::new().get_u16(left).ok_or(Lacking::Truncated)?;
    behind(table, row, 2, usize::from(n), left)
}

// A half's value is its whole octet, judged by its four bits; the high half consumes the octet, the low half none.
fn half(table: &[u32], row: usize, took: usize, bits: u8) -> Result<Found, Lacking>
    ensures { result ≡ found_as (mandatory_row_at (mandatory_rows_of table.now) row) (value 0 1 took (bits ∷ [])) }
{
    Ok(Found {
        start: 0,
        len: 1,
        took,
        fault: fault_of(table, row, took, &[bits]),
    })
}

// What a row of a table finds at the front of the octets left. Put into both loops over the rows: as a call its answer goes through memory,
// and reading takes a quarter more.
#[inline(always)]
pub fn decode_mandatory_ie(left: &[u8], table: &[u32], row: usize) -> Result<Found, Lacking>
    ensures { result ≡ found_as (mandatory_row_at (mandatory_rows_of table.now) row) (found_by (mandatory_form (mandatory_row_at (mandatory_rows_of table.now) row)) left.now) }
{
    let &first = left.first().ok_or(Lacking::Missing)?;
    match mandatory_form_at(table, row) {
        MandatoryForm::LowHalf => half(table, row, 0, first % 16),
        MandatoryForm::HighHalf => half(table, row, 1, first / 16),
        MandatoryForm::Fixed(n) => behind(table, row, 0, n, left),
        MandatoryForm::Lv => behind(table, row, 1, usize::from(first), left),
        MandatoryForm::LvE => behind_pair(table, row, left),
    }
}
