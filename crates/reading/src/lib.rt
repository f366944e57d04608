// Reading an optional part by a lent table or by the number of one, into two logs. One of which the table says all is read by the plain
// pass, which writes nothing where it is not one, or too long, or without room for its rows.
#![tactic(auto)]

ghost use Rattle.std.specs.Prelude.{◌≡◌};
ghost use Rattle.std.proofs.Math.Option.{none};
ghost use Rattle.definitions.specs.Rows.{rows_of, first_bad};
ghost use Rattle.definitions.specs.Reading.{reading, reading_by};
ghost use Rattle.rows.specs.Indexed.{Indexed};
ghost use Rattle.filling.specs.Decodes.{lent_of, Reads};

use checks::check_and_index;
use elements::walk::Tally;
use filling::{DecodeError, Decoded};
use noting::decode_noted;
use plain_by_table::plain;
use real::{TLVE_START, numbered};

// By a table that passes its check, and its index.
fn decode_by_index(
    octets: &[u8],
    table: &[u32],
    index: &[u8; 256],
    tlve_start: u8,
    option: bool,
    rows: &mut [u32],
    kept: &mut [u8],
    order: &mut [u8],
) -> Decoded
    requires { Indexed table.now index.now × (first_bad (rows_of table.now) ≡ none) }
    ensures { Reads (reading table.now tlve_start option octets.now (lent_of rows.old kept.old order.old)) result rows.new kept.new order.new }
{
    if plain(octets, table, index, rows) {
        return Ok(Tally { kept: 0, order: 0 });
    }
    decode_noted(octets, table, index, tlve_start, option, rows, kept, order)
}

// By a lent table: the start number of the long form, and whether elements out of sequence are taken.
pub fn decode_optional_ies(
    octets: &[u8],
    table: &[u32],
    tlve_start: u8,
    out_of_sequence: bool,
    rows: &mut [u32],
    kept: &mut [u8],
    order: &mut [u8],
) -> Decoded
    ensures { Reads (reading table.now tlve_start out_of_sequence octets.now (lent_of rows.old kept.old order.old)) result rows.new kept.new order.new }
{
    let mut index = [255u8; 256];
    check_and_index(table, &mut index)?;
    decode_by_index(
        octets,
        table,
        &index,
        tlve_start,
        out_of_sequence,
        rows,
        kept,
        order,
    )
}

// By table number: 0 is P, 1 to 6 the real tables, with their start number.
pub fn decode_optional_ies_by(
    number: u32,
    octets: &[u8],
    out_of_sequence: bool,
    rows: &mut [u32],
    kept: &mut [u8],
    order: &mut [u8],
) -> Decoded
    ensures { Reads (reading_by number out_of_sequence octets.now (lent_of rows.old kept.old order.old)) result rows.new kept.new order.new }
{
    let Some(table) = numbered(number) else {
        return Err(DecodeError::NoTable);
    };
    decode_by_index(
        octets,
        table.rows,
        table.index,
        TLVE_START,
        out_of_sequence,
        rows,
        kept,
        order,
    )
}
