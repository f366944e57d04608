// Reading an optional part into one block: the kept log first, the order log directly behind it.
#![tactic(auto)]

ghost use Rattle.std.specs.Prelude.{◌≡◌};
ghost use Rattle.std.proofs.Math.Option.{none};
ghost use Rattle.definitions.specs.Rows.{rows_of, first_bad};
ghost use Rattle.definitions.specs.Block.{reading_block, reading_block_by};
ghost use Rattle.rows.specs.Indexed.{Indexed};
ghost use Rattle.block_reading.specs.Blocks.{ReadsBlock};

use checks::check_and_index;
use elements::walk::Tally;
use filling::{DecodeError, Decoded, Room};
use measuring::measure;
use noting::decode_noted;
use octets::MOST_OCTETS;
use plain_by_table::plain;
use real::{TLVE_START, numbered};
use rows::columns::places;

// By a table that passes its check, and its index. A part of which the table does not say all is measured first: the seam between the
// two logs stands where its kept log ends.
fn block_by_index(
    octets: &[u8],
    table: &[u32],
    index: &[u8; 256],
    tlve_start: u8,
    option: bool,
    rows: &mut [u32],
    block: &mut [u8],
) -> Decoded
    requires { Indexed table.now index.now × (first_bad (rows_of table.now) ≡ none) }
    ensures { ReadsBlock (reading_block table.now tlve_start option octets.now rows.old block.old) result rows.new block.new }
{
    if plain(octets, table, index, rows) {
        return Ok(Tally { kept: 0, order: 0 });
    }
    if octets.len() > MOST_OCTETS {
        return Err(DecodeError::TooLong);
    }
    if rows.len() < 4 * places(table) {
        return Err(DecodeError::NoRoom(Room::Rows));
    }
    let needs = measure(octets, table, index, tlve_start, option)?;
    if block.len() < needs.kept {
        return Err(DecodeError::NoRoom(Room::Kept));
    }
    if block.len() - needs.kept < needs.order {
        return Err(DecodeError::NoRoom(Room::Kept));
    }
    let (kept, order) = block.split_at_mut(needs.kept);
    decode_noted(octets, table, index, tlve_start, option, rows, kept, order)
}

// By a lent table: the start number of the long form, and whether elements out of sequence are taken.
pub fn decode_into_block(
    octets: &[u8],
    table: &[u32],
    tlve_start: u8,
    out_of_sequence: bool,
    rows: &mut [u32],
    block: &mut [u8],
) -> Decoded
    ensures { ReadsBlock (reading_block table.now tlve_start out_of_sequence octets.now rows.old block.old) result rows.new block.new }
{
    let mut index = [255u8; 256];
    check_and_index(table, &mut index)?;
    block_by_index(
        octets,
        table,
        &index,
        tlve_start,
        out_of_sequence,
        rows,
        block,
    )
}

// By table number: 0 is P, 1 to 6 the real tables, with their start number.
pub fn decode_into_block_by(
    number: u32,
    octets: &[u8],
    out_of_sequence: bool,
    rows: &mut [u32],
    block: &mut [u8],
) -> Decoded
    ensures { ReadsBlock (reading_block_by number out_of_sequence octets.now rows.old block.old) result rows.new block.new }
{
    let Some(table) = numbered(number) else {
        return Err(DecodeError::NoTable);
    };
    block_by_index(
        octets,
        table.rows,
        table.index,
        TLVE_START,
        out_of_sequence,
        rows,
        block,
    )
}
