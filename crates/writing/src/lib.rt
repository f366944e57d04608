// Writing an optional part by a lent table or by the number of one: in one pass, where that may do and does, and else measured first.
#![tactic(auto)]

ghost use Rattle.definitions.specs.Writing.{writing, writing_by};
ghost use Rattle.kept.specs.Kept.{used_of};
ghost use Rattle.measured_writing.specs.Encodes.{Encodes};
ghost use Rattle.writing.specs.Passing.{WroteShort, Plainly};

use checks::check_and_index;
use kept::{MOST_LOG, too_long};
use measured_writing::encode::{EncodeError, Encoded, encode_measured};
use octets::MOST_OCTETS;
use one_pass::write_pass;
use real::numbered;
use rows::columns::places;

// The most received octets, and octets of the kept log, of a message that a pass is tried with: one with more received octets is seldom
// shorter than the pass's array, and the pass gives up on a longer kept log.
pub const MOST_PASSED: usize = 512;

// A message by any table and any index in one pass, if it is short and within all limits, there is a row for each place, and the pass
// reaches the end; else nothing is written.
pub fn write_short<'a>(
    table: &[u32],
    index: &[u8],
    rows: &[u32],
    received: &'a [u8],
    set: &'a [u8],
    set_used: usize,
    kept: &[u8],
    kept_used: usize,
    order: &[u8],
    order_used: usize,
    output: &mut [u8],
) -> Option<usize>
    ensures { WroteShort table.now index.now rows.now received.now (used_of set.now set_used) (used_of order.now order_used) (used_of kept.now kept_used) output.old result output.new }
{
    if received.len() > MOST_PASSED
        || too_long(kept, kept_used, MOST_PASSED)
        || too_long(set, set_used, MOST_OCTETS)
        || too_long(order, order_used, MOST_LOG)
        || rows.len() / 4 < places(table)
    {
        return None;
    }
    write_pass(
        table,
        index,
        rows,
        received,
        &set[..set_used],
        &kept[..kept_used],
        &order[..order_used],
        output,
    )
}

// The same by a lent table, if that passes its check; else nothing is written. What makes a message too long for a pass is asked before:
// the table of such a one is checked once, where it is measured.
fn pass_lent<'a>(
    table: &[u32],
    rows: &[u32],
    received: &'a [u8],
    set: &'a [u8],
    set_used: usize,
    kept: &[u8],
    kept_used: usize,
    order: &[u8],
    order_used: usize,
    output: &mut [u8],
) -> Option<usize>
    ensures { Plainly (writing table.now rows.now received.now (used_of set.now set_used) (used_of order.now order_used) (used_of kept.now kept_used) output.old) result output.old output.new }
{
    if received.len() > MOST_PASSED || kept_used > MOST_PASSED {
        return None;
    }
    let mut index = [255u8; 256];
    check_and_index(table, &mut index).ok()?;
    write_short(
        table, &index, rows, received, set, set_used, kept, kept_used, order, order_used, output,
    )
}

// By a lent table.
pub fn encode_optional_ies<'a>(
    table: &[u32],
    rows: &[u32],
    received: &'a [u8],
    set: &'a [u8],
    set_used: usize,
    kept: &[u8],
    kept_used: usize,
    order: &[u8],
    order_used: usize,
    output: &mut [u8],
) -> Encoded
    ensures { Encodes (writing table.now rows.now received.now (used_of set.now set_used) (used_of order.now order_used) (used_of kept.now kept_used) output.old) result output.new }
{
    match pass_lent(
        table, rows, received, set, set_used, kept, kept_used, order, order_used, output,
    ) {
        Some(n) => Ok(n),
        None => encode_measured(
            table, rows, received, set, set_used, kept, kept_used, order, order_used, output,
        ),
    }
}

// By table number: 0 is P, 1 to 6 the real tables. Each passes its check, and its index is a constant.
pub fn encode_optional_ies_by<'a>(
    number: u32,
    rows: &[u32],
    received: &'a [u8],
    set: &'a [u8],
    set_used: usize,
    kept: &[u8],
    kept_used: usize,
    order: &[u8],
    order_used: usize,
    output: &mut [u8],
) -> Encoded
    ensures { Encodes (writing_by number rows.now received.now (used_of set.now set_used) (used_of order.now order_used) (used_of kept.now kept_used) output.old) result output.new }
{
    let Some(table) = numbered(number) else {
        return Err(EncodeError::NoTable);
    };
    let table_rows = table.rows;
    let index = table.index;
    match write_short(
        table_rows, index, rows, received, set, set_used, kept, kept_used, order, order_used,
        output,
    ) {
        Some(len) => Ok(len),
        None => encode_measured(
            table_rows, rows, received, set, set_used, kept, kept_used, order, order_used, output,
        ),
    }
}
