// Writing an optional part by a lent table: all of it is measured before an octet is written.
ghost use Rattle.std.specs.Prelude.{◌≡◌, Some};
ghost use Rattle.std.proofs.Math.Option.{none};
ghost use Rattle.definitions.specs.Rows.{rows_of, first_bad};
ghost use Rattle.definitions.specs.Writing.{writing};
ghost use Rattle.kept.specs.Kept.{used_of};
ghost use Rattle.definitions.specs.Logs.{kept_list};
ghost use Rattle.logs.specs.Checks.{kept_octets as octets_kept};
ghost use Rattle.measured_writing.specs.Added.{IndexIs, filled_of};
ghost use Rattle.measured_writing.specs.Sizes.{LoggedBy};
ghost use Rattle.measured_writing.specs.Encodes.{survey_error, Encodes, used_up, Limited};

use crate::sizes::{Logged, SurveyError, logged_len, survey};
use checks::{BadRow, check_and_index};
use logs::{kept_len, logs_long};
use rows::columns::places;
use values::check::too_long;
use walking::write_walk;

// What is malformed.
#[derive(Clone, Copy, PartialEq, Eq)]
pub enum Which {
    Order,
    Kept,
    Rows,
}

// Why a message is not written; an output that is too short needs so many octets.
#[derive(Clone, Copy, PartialEq, Eq)]
pub enum EncodeError {
    NoRows,
    TooLong,
    BadTable(usize),
    NoTable,
    Unfit(usize),
    Malformed(Which),
    NoOutput(u64),
}

impl From<BadRow> for EncodeError {
    ghost use Rattle.measured_writing.specs.declared.encode.EncodeError.{EncodeError};

    ghost from_gives = { λ bad e. e ≡ EncodeError.BadTable bad.0 };

    fn from(bad: BadRow) -> EncodeError {
        EncodeError::BadTable(bad.0)
    }
}

impl From<SurveyError> for EncodeError {
    ghost from_gives = { λ error e. e ≡ survey_error error };

    fn from(error: SurveyError) -> EncodeError {
        match error {
            SurveyError::Malformed => EncodeError::Malformed(Which::Rows),
            SurveyError::Unfit(place) => EncodeError::Unfit(place),
        }
    }
}

// What writing answers: the octets written, or a refusal.
pub type Encoded = Result<usize, EncodeError>;

// By a table that passes and its index, of the octets that are used, with a row for each place and two logs that are well formed, by
// what was found in each.
fn encode_formed<'a>(
    table: &[u32],
    index: &[u8],
    rows: &[u32],
    received: &'a [u8],
    set: &'a [u8],
    kept: &[u8],
    order: &[u8],
    t: Logged,
    kept_octets: usize,
    output: &mut [u8],
) -> Encoded
    requires { Limited table.now index.now rows.now received.now set.now kept.now order.now × LoggedBy (filled_of table.now rows.now received.now set.now) order.now t × (Some kept_octets ≡ octets_kept (kept_list kept.now)) }
    ensures { Encodes (writing table.now rows.now received.now (used_up set.now) (used_up order.now) (used_up kept.now) output.old) result output.new }
{
    if t.apart {
        return Err(EncodeError::Malformed(Which::Rows));
    }
    let added = survey(table, rows, received, set, t.seen)?;
    let need = t.octets + kept_octets + added.octets;
    if output.len() < need {
        return Err(EncodeError::NoOutput(need as u64));
    }
    Ok(write_walk(
        table, index, rows, received, set, kept, order, added.seen, output,
    ))
}

// The same of any two logs, measured first.
fn encode_logged<'a>(
    table: &[u32],
    index: &[u8],
    rows: &[u32],
    received: &'a [u8],
    set: &'a [u8],
    kept: &[u8],
    order: &[u8],
    output: &mut [u8],
) -> Encoded
    requires { Limited table.now index.now rows.now received.now set.now kept.now order.now }
    ensures { Encodes (writing table.now rows.now received.now (used_up set.now) (used_up order.now) (used_up kept.now) output.old) result output.new }
{
    let Some(logged) = logged_len(table, index, rows, received, set, order) else {
        return Err(EncodeError::Malformed(Which::Order));
    };
    let Some(octets) = kept_len(kept) else {
        return Err(EncodeError::Malformed(Which::Kept));
    };
    encode_formed(
        table, index, rows, received, set, kept, order, logged, octets, output,
    )
}

// By a table that passes its check, and its index.
fn encode_by_index<'a>(
    table: &[u32],
    index: &[u8],
    rows: &[u32],
    received: &'a [u8],
    set: &'a [u8],
    set_used: usize,
    kept: &[u8],
    kept_used: usize,
    order: &[u8],
    order_used: usize,
    output: &mut [u8],
) -> Encoded
    requires { (first_bad (rows_of table.now) ≡ none) × IndexIs table.now index.now }
    ensures { Encodes (writing table.now rows.now received.now (used_of set.now set_used) (used_of order.now order_used) (used_of kept.now kept_used) output.old) result output.new }
{
    if too_long(received, set, set_used, 0) || logs_long(order, order_used, kept, kept_used) {
        return Err(EncodeError::TooLong);
    }
    if rows.len() < 4 * places(table) {
        return Err(EncodeError::NoRows);
    }
    encode_logged(
        table,
        index,
        rows,
        received,
        &set[..set_used],
        &kept[..kept_used],
        &order[..order_used],
        output,
    )
}

// By a lent table, which is checked first.
pub fn encode_measured<'a>(
    table: &[u32],
    rows: &[u32],
    received: &'a [u8],
    set: &'a [u8],
    set_used: usize,
    kept: &[u8],
    kept_used: usize,
    order: &[u8],
    order_used: usize,
    output: &mut [u8],
) -> Encoded
    ensures { Encodes (writing table.now rows.now received.now (used_of set.now set_used) (used_of order.now order_used) (used_of kept.now kept_used) output.old) result output.new }
{
    let mut index = [255u8; 256];
    check_and_index(table, &mut index)?;
    encode_by_index(
        table, &index, rows, received, set, set_used, kept, kept_used, order, order_used, output,
    )
}
