// Checking an optional part that another program made: one pass up to the first offender, and from there on for a cut alone, since a
// part that is cut short is refused as such wherever an offender stands. Nothing is lent to be written.
#![tactic(auto)]

ghost use Rattle.std.specs.Prelude.{◌≡◌, ℕ};
ghost use Rattle.definitions.specs.Rows.{rows_of};
ghost use Rattle.definitions.specs.Checking.{checking, checking_by};
ghost use Rattle.checking.specs.Checks.{part_check_as, rest_as, len_by, cut_from, stopped_in, Ready};

use checks::{BadRow, check_and_index};
use elements::element::{Cut, came_unknown, fit_of, iei_of, place_by};
use length::CutShort;
use octets::MOST_OCTETS;
use real::{TLVE_START, numbered};
use rows::columns::numbers_at;

// Why a part is not accepted: its first offender, by where that starts; or a refusal of reading.
#[derive(Clone, Copy, PartialEq, Eq)]
pub enum PartError {
    Offends(usize),
    CutShort(Cut),
    TooLong,
    BadTable(usize),
    NoTable,
}

impl From<Cut> for PartError {
    ghost use Rattle.checking.specs.declared.PartError.{PartError};

    ghost from_gives = { λ cut e. e ≡ PartError.CutShort cut };

    fn from(cut: Cut) -> PartError {
        PartError::CutShort(cut)
    }
}

impl From<BadRow> for PartError {
    ghost use Rattle.checking.specs.declared.PartError.{PartError};

    ghost from_gives = { λ bad e. e ≡ PartError.BadTable bad.0 };

    fn from(bad: BadRow) -> PartError {
        PartError::BadTable(bad.0)
    }
}

// Where the first offender stands, if there is one.
fn first_offender(part: &[u8], table: &[u32], index: &[u8; 256]) -> Option<usize>
    requires { Ready table.now index.now part.now }
    ensures { (start : ℕ) → checking table.now start part.now ≡ stopped_in (rows_of table.now) start part.now result }
{
    let mut at = 0;
    let mut least = 0;
    while at < part.len() {
        let iei = iei_of(part[at]);
        let Some(place) = place_by(index, iei) else {
            return Some(at);
        };
        if place < least {
            return Some(at);
        }
        let row = numbers_at(table, place);
        if u32::from(iei) != row.first {
            return Some(at);
        }
        let fit = fit_of(&part[at..], row);
        if !fit.taken || fit.len > row.greatest {
            return Some(at);
        }
        least = place + 1;
        at += fit.len;
    }
    None
}

// How many octets an element has, by its place if it has one; its verdict does not matter.
fn len_by(
    left: &[u8],
    x: u8,
    place: Option<usize>,
    table: &[u32],
    tlve_start: u8,
) -> Result<usize, CutShort>
    ensures { result ≡ len_by table.now place x tlve_start left.now }
{
    match place {
        Some(place) => Ok(fit_of(left, numbers_at(table, place)).len),
        None => came_unknown(left, x, tlve_start).map(|came| came.len),
    }
}

// Whether a part is read whole from a position on, or is cut short there.
fn find_cut(
    part: &[u8],
    table: &[u32],
    index: &[u8; 256],
    tlve_start: u8,
    from: usize,
) -> Result<(), Cut>
    requires { Ready table.now index.now part.now }
    ensures { rest_as result ≡ cut_from (rows_of table.now) tlve_start «from» part.now }
{
    let mut at = from;
    while at < part.len() {
        let first = part[at];
        let place = place_by(index, iei_of(first));
        let rest = &part[at..];
        let left = rest.len();
        at += len_by(rest, first, place, table, tlve_start).map_err(|cut| Cut {
            start: at,
            first,
            left,
            missing: cut.missing,
        })?;
    }
    Ok(())
}

// By a table that passes its check, and its index.
fn check_by_index(
    part: &[u8],
    table: &[u32],
    index: &[u8; 256],
    tlve_start: u8,
) -> Result<(), PartError>
    requires { Ready table.now index.now part.now }
    ensures { part_check_as result ≡ checking table.now tlve_start part.now }
{
    let Some(at) = first_offender(part, table, index) else {
        return Ok(());
    };
    find_cut(part, table, index, tlve_start, at)?;
    Err(PartError::Offends(at))
}

// By a lent table.
pub fn check_part(part: &[u8], table: &[u32], tlve_start: u8) -> Result<(), PartError>
    ensures { part_check_as result ≡ checking table.now tlve_start part.now }
{
    let mut index = [255u8; 256];
    check_and_index(table, &mut index)?;
    if part.len() > MOST_OCTETS {
        return Err(PartError::TooLong);
    }
    check_by_index(part, table, &index, tlve_start)
}

// By table number: 0 is P, 1 to 6 the real tables.
pub fn check_part_by(number: u32, part: &[u8]) -> Result<(), PartError>
    ensures { part_check_as result ≡ checking_by number part.now }
{
    let table = numbered(number).ok_or(PartError::NoTable)?;
    if part.len() > MOST_OCTETS {
        return Err(PartError::TooLong);
    }
    check_by_index(part, table.rows, table.index, TLVE_START)
}
