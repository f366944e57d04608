// Reading an optional part by a table and any index, with an entry in the order log for each element: what reading does with a part of
// which the table does not say all.
#![tactic(auto)]

mod short;

ghost use Rattle.std.specs.Prelude.{◌≡◌};
ghost use Rattle.std.proofs.Math.Option.{none};
ghost use Rattle.definitions.specs.Rows.{rows_of, first_bad};
ghost use Rattle.definitions.specs.Reading.{reading};
ghost use Rattle.rows.specs.Indexed.{Indexed};
ghost use Rattle.filling.specs.Decodes.{lent_of, Reads};
ghost use Rattle.filling.specs.Noted.{Unplain, noted};

use crate::short::{MOST_ROWS, MOST_SHORT, MOST_SHORTEST, SHORT_LOG, SHORTEST_LOG, decode_into};
use filling::{DecodeError, Decoded, Room, fill_measured};
use octets::MOST_OCTETS;
use rows::columns::places;

// By a table and an index: by its own index, of a table that passes its check, a part of which the table does not say all is read.
pub fn decode_noted(
    octets: &[u8],
    table: &[u32],
    index: &[u8; 256],
    tlve_start: u8,
    option: bool,
    rows: &mut [u32],
    kept: &mut [u8],
    order: &mut [u8],
) -> Decoded
    ensures by_index { Reads (noted table.now index.now tlve_start option octets.now (lent_of rows.old kept.old order.old)) result rows.new kept.new order.new }
    ensures own_index { Indexed table.now index.now → first_bad (rows_of table.now) ≡ none → Unplain (rows_of table.now) tlve_start option octets.now rows.old → Reads (reading table.now tlve_start option octets.now (lent_of rows.old kept.old order.old)) result rows.new kept.new order.new }
{
    if octets.len() > MOST_OCTETS {
        return Err(DecodeError::TooLong);
    }
    let count = places(table);
    if rows.len() / 4 < count {
        return Err(DecodeError::NoRoom(Room::Rows));
    }
    let n = 4 * count;
    if octets.len() <= MOST_SHORTEST && n <= MOST_SHORTEST {
        return decode_into::<MOST_SHORTEST, SHORTEST_LOG>(
            octets, table, index, tlve_start, option, n, rows, kept, order,
        );
    }
    if octets.len() <= MOST_SHORT && n <= MOST_ROWS {
        return decode_into::<MOST_ROWS, SHORT_LOG>(
            octets, table, index, tlve_start, option, n, rows, kept, order,
        );
    }
    fill_measured(octets, table, index, tlve_start, option, rows, kept, order)
}
