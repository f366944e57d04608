// The index of a table: for each IEI the place of the first row that lists it, or 255.
ghost use Rattle.std.specs.Prelude.{◌≡◌};
ghost use Rattle.definitions.specs.Rows.{rows_of, index};

use crate::marks::enter_row;
use rows::columns::places;
use rows::index::NO_PLACE;

// The index of a table, also of one that fails the check: the first row that lists an IEI has it.
pub fn iei_index(table: &[u32]) -> [u8; 256]
    ensures { result ≡ index (rows_of table.now) }
{
    let mut entries = [NO_PLACE; 256];
    for k in 0..places(table) {
        enter_row(table, k, &mut entries);
    }
    entries
}
