// The row of a place: source, start and length of its value and its IEI, the octets that it names, and whether these fit a form.
ghost use Rattle.std.specs.Prelude.{◌≡◌, get_or, drop, eqb};
ghost use Rattle.definitions.specs.Basic.{pick};
ghost use Rattle.definitions.specs.Values.{mandatory_width, value_in, value_at, octets_at, good_value, bad_rows, fits};
ghost use Rattle.rows.specs.Forms.{form_as};
ghost use Rattle.values.specs.Rows.{value_of, width_of, sources_of, PlacedAs};

use octets::part;
use rows::columns::Form;

// The numbers of a row: source, start and length of its value, and its IEI, which a mandatory row has not.
#[derive(Clone, Copy, PartialEq, Eq)]
pub struct ValueRow {
    pub source: u32,
    pub start: u32,
    pub len: u32,
    pub iei: u32,
}

// A number behind a position, also of a row that is not whole; 0 where there is none.
fn number(rows: &[u32], at: usize, column: usize) -> u32
    ensures { result ≡ get_or (drop at rows.now) column 0 }
{
    if at > rows.len() {
        return 0;
    }
    if column >= rows.len() - at {
        return 0;
    }
    rows[at + column]
}

// The numbers of a place's row, at once where the rows have it whole; 0 where there are none.
// Tried: the rows from a place on, with the width as a const parameter, by a slice pattern. It misses the bar of writing: 0.72 of the Rust's
// time in place of 0.68, messages out of sequence 0.89 in place of 0.82 (docs/DESIGN-PASS.md).
pub fn row_at(rows: &[u32], place: usize) -> ValueRow
    ensures { value_of result ≡ value_at rows.now place }
{
    if place < rows.len() / 4 {
        let at = 4 * place;
        return ValueRow {
            source: rows[at],
            start: rows[at + 1],
            len: rows[at + 2],
            iei: rows[at + 3],
        };
    }
    if place > rows.len() / 4 {
        return ValueRow {
            source: 0,
            start: 0,
            len: 0,
            iei: 0,
        };
    }
    let at = 4 * place;
    ValueRow {
        source: number(rows, at, 0),
        start: number(rows, at, 1),
        len: number(rows, at, 2),
        iei: number(rows, at, 3),
    }
}

// The same of a mandatory row, of three numbers.
pub fn mandatory_row_at(rows: &[u32], row: usize) -> ValueRow
    ensures { value_of result ≡ value_in mandatory_width rows.now row }
{
    if row < rows.len() / 3 {
        let at = 3 * row;
        return ValueRow {
            source: rows[at],
            start: rows[at + 1],
            len: rows[at + 2],
            iei: 0,
        };
    }
    if row > rows.len() / 3 {
        return ValueRow {
            source: 0,
            start: 0,
            len: 0,
            iei: 0,
        };
    }
    let at = 3 * row;
    ValueRow {
        source: number(rows, at, 0),
        start: number(rows, at, 1),
        len: number(rows, at, 2),
        iei: 0,
    }
}

// A row of a place, which has an IEI, or a mandatory one.
fn row_of(rows: &[u32], with_iei: bool, k: usize) -> ValueRow
    ensures { value_of result ≡ value_in (width_of with_iei) rows.now k }
{
    if with_iei {
        row_at(rows, k)
    } else {
        mandatory_row_at(rows, k)
    }
}

// How many octets there are of those that a present value's source names.
fn limit_of(source: u32, received: usize, set: usize) -> usize
    ensures { result ≡ pick (eqb source 1) received set }
{
    if source == 1 { received } else { set }
}

// Whether a row is well formed: a source of 0 to 2, a value that ends within its octets, an absent one all zeros.
pub fn is_good(row: ValueRow, received: &[u8], set: &[u8]) -> bool
    ensures { result ≡ good_value (sources_of received.now set.now) (value_of row) }
{
    if row.source > 2 {
        return false;
    }
    if row.source == 0 {
        return row.start == 0 && row.len == 0 && row.iei == 0;
    }
    let end = row.start as usize + row.len as usize;
    end <= limit_of(row.source, received.len(), set.len())
}

// Whether a row of the first n, of a place or a mandatory one, is malformed.
pub fn any_bad(rows: &[u32], with_iei: bool, n: usize, received: &[u8], set: &[u8]) -> bool
    ensures { result ≡ bad_rows (width_of with_iei) (sources_of received.now set.now) rows.now n }
{
    for k in 0..n {
        if !is_good(row_of(rows, with_iei, k), received, set) {
            return true;
        }
    }
    false
}

// The octets that a present value's source names.
fn source_of<'a>(received: &'a [u8], set: &'a [u8], source: u32) -> &'a [u8]
    ensures { (source ≡ 1 → result ≡ received.entry) × ((source ≡ 1 → ⊥) → result ≡ set.entry) }
{
    if source == 1 { received } else { set }
}

// The octets of a value: a part of the received or of the set octets, whichever its row names; none of an absent one. Whether they are all
// there is asked as `is_good` asks it, so that behind that it is not asked again.
pub fn value_octets<'a>(received: &'a [u8], set: &'a [u8], row: ValueRow) -> &'a [u8]
    ensures result_value { result.now ≡ octets_at (sources_of received.now set.now) (value_of row) }
    ensures placed_as { PlacedAs received.entry set.entry (value_of row) result }
{
    let source = row.source;
    let start = row.start as usize;
    let len = row.len as usize;
    if source == 0 {
        return part(received, 0, 0);
    }
    let from = source_of(received, set, source);
    let end = start + len;
    if end <= from.len() {
        return &from[start..end];
    }
    part(from, start, len)
}

// Whether octets fit a form: a half octet is one octet, from set octets of 0 to 15.
pub fn does_fit(form: Form, source: u32, octets: &[u8]) -> bool
    ensures { result ≡ fits (form_as form) source octets.now }
{
    match form {
        Form::Half => octets.len() == 1 && (source == 1 || octets[0] <= 15),
        Form::Fixed(n) => octets.len() == n,
        Form::Tlv => octets.len() <= 255,
        Form::TlvE => octets.len() <= 65_535,
    }
}
