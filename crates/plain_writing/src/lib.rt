// A message whose logs are both empty, as most are, written in one pass.
#![tactic(auto)]

ghost use Rattle.std.specs.Prelude.{◌≤◌, length};
ghost use Rattle.definitions.specs.Rows.{rows_of};
ghost use Rattle.placing.specs.Pieces.{lent_of, ranged, WroteBy, capacity};

use placing::{copy_out, is_few, put_between};
use rows::columns::places;

// By an array of so many octets. It is cleared at each call, so it is of one of two lengths.
fn plain_in<'a, const N: usize>(
    table: &[u32],
    rows: &[u32],
    received: &'a [u8],
    set: &'a [u8],
    output: &mut [u8],
) -> Option<usize>
    requires { N ≤ 512 }
    ensures { WroteBy N (ranged (lent_of table.now rows.now received.now set.now) 0 (length (rows_of table.now))) output.old result output.new }
{
    let mut found = [0u8; N];
    let passed = put_between(table, rows, received, set, 0, places(table), &mut found, 0);
    copy_out(output, &found, passed)
}

// By a table.
pub fn write_plain<'a>(
    table: &[u32],
    rows: &[u32],
    received: &'a [u8],
    set: &'a [u8],
    output: &mut [u8],
) -> Option<usize>
    ensures { WroteBy (capacity (length (rows_of table.now)) 0) (ranged (lent_of table.now rows.now received.now set.now) 0 (length (rows_of table.now))) output.old result output.new }
{
    if is_few(places(table), 0) {
        return plain_in::<128>(table, rows, received, set, output);
    }
    plain_in::<512>(table, rows, received, set, output)
}
