// The table checks of document 01: a table passes, or its first bad row. Any numbers get an answer, and the table is read once.
#![tactic(auto)]

ghost use Rattle.std.specs.Prelude.{◌≡◌, true, ◌&&◌, ◌||◌, not, ◌+◌, ◌<◌, suc, length, drop, eqb, leb};
ghost use Rattle.std.proofs.Math.Option.{none};
ghost use Rattle.definitions.specs.Basic.{pick, is_none, most_kinds};
ghost use Rattle.definitions.specs.Rows.{rows_of, row_at, good_iei, first_bad, index};
ghost use Rattle.definitions.specs.Mandatory.{mandatory_rows_of, mandatory_row_at, good_mandatory, first_bad_mandatory};
ghost use Rattle.rows.specs.Numbers.{numbers_at};
ghost use Rattle.indexing.specs.Marks.{free, enter, enter_row, indexed};
ghost use Rattle.checks.specs.Passes.{in_range, passes, bad_from, plain_in_range, paired};
ghost use Rattle.checks.specs.Answers.{checked_as};

use indexing::marks::{enter_free, enter_row, good_iei, mark_of};
use rows::columns::{
    Numbers, mandatory_code_at, mandatory_kinds_at, mandatory_least_at, mandatory_rows,
    mandatory_size_at, numbers_at, places,
};
use rows::index::NO_PLACE;

// The most places, and the most mandatory rows.
const MOST_PLACES: usize = 128;

const MOST_MANDATORY: usize = 32;

// The first bad row of a table that fails its check.
#[derive(Clone, Copy, PartialEq, Eq)]
pub struct BadRow(pub usize);

// ---- optional rows

// A size matters for one form only.
fn size_fits(code: u32, size: usize) -> bool
    ensures { result ≡ (not (eqb code 1) || leb size 255) }
{
    code != 1 || size <= 255
}

// The greatest set: all sixteen values of a half octet, or all eight of another form.
fn most_kinds(half: bool) -> u32
    ensures { result ≡ most_kinds half }
{
    if half { 65_535 } else { 255 }
}

// A set of kinds: not empty, and at most the greatest.
fn kinds_fit(kinds: u32, most: u32) -> bool
    ensures { result ≡ (leb 1 kinds && leb kinds most) }
{
    (1..=most).contains(&kinds)
}

// The least and the greatest whole length.
fn lengths_fit(least: usize, greatest: usize) -> bool
    ensures { result ≡ (leb least greatest && leb greatest 65538) }
{
    least <= greatest && greatest <= 65_538
}

// The ranges of a row's numbers behind its IEIs.
fn in_range(row: Numbers) -> bool
    ensures { result ≡ in_range row.code row.size row.least row.greatest row.kinds }
{
    kinds_fit(row.kinds, most_kinds(row.code == 0))
        && row.code <= 3
        && size_fits(row.code, row.size)
        && lengths_fit(row.least, row.greatest)
}

// An IEI entered where the row may list it and its entry is free; whether it was. One that the row may not list is not entered.
fn enter_good(index: &mut [u8; 256], half: bool, iei: u32, mark: u8) -> bool
    ensures { (result ≡ (good_iei half iei && free index.old iei)) × (result ≡ true → index.new ≡ enter mark iei index.old) }
{
    good_iei(half, iei) && enter_free(index, iei, mark)
}

// What is left to ask of a row whose form is in range: its set of kinds, its lengths and its one IEI, which is entered where they pass.
fn rest_passes(row: Numbers, half: bool, index: &mut [u8; 256], mark: u8) -> bool
    ensures { (result ≡ ((leb 1 row.kinds && leb row.kinds (most_kinds half)) && ((leb row.least row.greatest && leb row.greatest 65538) && (good_iei half row.first && free index.old row.first)))) × (result ≡ true → index.new ≡ enter mark row.first index.old) }
{
    kinds_fit(row.kinds, most_kinds(half))
        && lengths_fit(row.least, row.greatest)
        && enter_good(index, half, row.first, mark)
}

// A row of one IEI, as most are, entered where the row passes. The forms with a length field come first, since most rows have one of them and
// there is no size to look at: by one test, where a `match` over all forms makes three.
fn one_passes(row: Numbers, index: &mut [u8; 256], mark: u8) -> bool
    ensures { (result ≡ (in_range row.code row.size row.least row.greatest row.kinds && (good_iei (eqb row.code 0) row.first && free index.old row.first))) × (result ≡ true → index.new ≡ enter mark row.first index.old) }
{
    if (2..=3).contains(&row.code) {
        return rest_passes(row, false, index, mark);
    }
    match row.code {
        0 => rest_passes(row, true, index, mark),
        1 if row.size <= 255 => rest_passes(row, false, index, mark),
        _ => false,
    }
}

// A row of any number of IEIs, by its numbers, and these entered where it passes. An unfinished row has no set of kinds.
fn more_pass(table: &[u32], place: usize, row: Numbers, index: &mut [u8; 256]) -> bool
    requires { row ≡ numbers_at table.now place }
    ensures { (result ≡ passes place (row_at (rows_of table.now) place) index.old) × (result ≡ true → index.new ≡ enter_row place (row_at (rows_of table.now) place) index.old) }
{
    in_range(row) && (1..=4).contains(&row.count) && enter_row(table, place, index)
}

// The rows one after the other, up to the first bad one; of a table that passes, all IEIs are entered. The loop is over the rows that the
// table has whole: one behind them is unfinished. It calls for a row's IEIs by itself, since a function between, which is handed the
// table, would store that for each row.
fn check_rows(table: &[u32], index: &mut [u8; 256]) -> Result<(), BadRow>
    ensures { (checked_as result ≡ bad_from 0 index.old (rows_of table.now)) × (bad_from 0 index.old (rows_of table.now) ≡ none → index.new ≡ indexed 0 index.old (rows_of table.now)) }
{
    let n = table.len() / 10;
    for k in 0..n {
        if k >= MOST_PLACES {
            return Err(BadRow(k));
        }
        let row = numbers_at(table, k);
        if row.count == 1 {
            if !one_passes(row, index, mark_of(k)) {
                return Err(BadRow(k));
            }
        } else if !more_pass(table, k, row, index) {
            return Err(BadRow(k));
        }
    }
    if places(table) > n {
        return Err(BadRow(n));
    }
    Ok(())
}

// A table of optional elements.
pub fn check_table(table: &[u32]) -> Result<(), BadRow>
    ensures { checked_as result ≡ first_bad (rows_of table.now) }
{
    let mut entries = [NO_PLACE; 256];
    check_rows(table, &mut entries)
}

// The same, and the index of a table that passes; the entries are as they were where the table fails. IEIs are entered in the lent
// array itself: for a caller who reads it only of a table that passes, the compiled code copies nothing.
pub fn check_and_index(table: &[u32], entries: &mut [u8; 256]) -> Result<(), BadRow>
    ensures { (checked_as result ≡ first_bad (rows_of table.now)) × (entries.new ≡ pick (is_none (first_bad (rows_of table.now))) (index (rows_of table.now)) entries.old) }
{
    let lent = *entries;
    *entries = [NO_PLACE; 256];
    let checked = check_rows(table, entries);
    if checked.is_err() {
        *entries = lent;
    }
    checked
}

// ---- mandatory rows

fn plain_size_fits(code: u32, size: usize) -> bool
    ensures { result ≡ (not (eqb code 2) || (leb 1 size && leb size 255)) }
{
    code != 2 || (1..=255).contains(&size)
}

// The least length of a half is 0.
fn half_fits(code: u32, least: usize) -> bool
    ensures { result ≡ (not (leb code 1) || eqb least 0) }
{
    code > 1 || least == 0
}

// The ranges of a row's numbers.
fn plain_in_range(table: &[u32], row: usize) -> bool
    ensures { result ≡ plain_in_range (mandatory_row_at (mandatory_rows_of table.now) row) }
{
    let code = mandatory_code_at(table, row);
    let least = mandatory_least_at(table, row);
    code <= 4
        && plain_size_fits(code, mandatory_size_at(table, row))
        && least <= 65_537
        && half_fits(code, least)
        && kinds_fit(mandatory_kinds_at(table, row), most_kinds(code <= 1))
}

// Halves stand in pairs: right behind each low one a high one, and no high one elsewhere.
fn is_paired(after: bool, code: u32, next: u32) -> bool
    ensures { result ≡ paired after code next }
{
    match code {
        0 => next == 1,
        1 => after,
        _ => true,
    }
}

fn plain_passes(table: &[u32], row: usize, after: bool) -> bool
    requires { row < length (mandatory_rows_of table.now) }
    ensures { result ≡ good_mandatory after (mandatory_row_at (mandatory_rows_of table.now) row) (drop (suc row) (mandatory_rows_of table.now)) }
{
    let code = mandatory_code_at(table, row);
    let next = mandatory_code_at(table, row + 1);
    plain_in_range(table, row) && is_paired(after, code, next)
}

// A table of mandatory rows.
pub fn check_mandatory_table(table: &[u32]) -> Result<(), BadRow>
    ensures { checked_as result ≡ first_bad_mandatory (mandatory_rows_of table.now) }
{
    let mut after = false;
    for k in 0..mandatory_rows(table) {
        if k >= MOST_MANDATORY || !plain_passes(table, k, after) {
            return Err(BadRow(k));
        }
        after = mandatory_code_at(table, k) == 0;
    }
    Ok(())
}
