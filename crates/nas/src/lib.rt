// The C interface: document 01's calls on numbers and slices. Each returns document 01's number and puts into five lent places
// how many values there are, then the values in document 01's order; the places behind them stay as they were. A slice is
// handed over as a pointer and a length. tlve_start is the start number of the long form.
#![tactic(auto)]

ghost use Rattle.std.specs.Prelude.{◌≡◌, not, eqb};
ghost use Rattle.definitions.specs.Block.{reading_block, reading_block_by};
ghost use Rattle.definitions.specs.Checking.{checking, checking_by};
ghost use Rattle.definitions.specs.Findings.{finding};
ghost use Rattle.definitions.specs.Length.{unknown_length, missing};
ghost use Rattle.definitions.specs.Logs.{kept_push, kept_count, kept_get, kept_clear, order_get};
ghost use Rattle.definitions.specs.Mandatory.{mandatory_rows_of, first_bad_mandatory, mandatory_reading, mandatory_reading_by, mandatory_writing, mandatory_writing_by};
ghost use Rattle.definitions.specs.Reading.{reading, reading_by};
ghost use Rattle.definitions.specs.Rows.{rows_of, first_bad, index as index_of, place_in};
ghost use Rattle.definitions.specs.Values.{showing, setting, clearing};
ghost use Rattle.definitions.specs.Why.{explaining, explaining_by};
ghost use Rattle.definitions.specs.Writing.{writing, writing_by};
ghost use Rattle.kept.specs.Kept.{used_of};
ghost use Rattle.filling.specs.Decodes.{lent_of};
ghost use Rattle.elements.specs.Nexts.{next_of};
ghost use Rattle.entries.specs.Entries.{order_push_by};
ghost use Rattle.part_answers.specs.Mandated.{MandatorySays};
ghost use Rattle.answers.specs.Nexts.{state_by, NextSays};
ghost use Rattle.answers.specs.Says.{Says, ReadSays, BlockSays, EditSays, WriteSays, RowsWriteSays, FindingSays, check_answer, place_answer, length_answer};

use answers::{
    checked_said, counted_said, edited_said, entry_said, got_said, length_said, next_said,
    place_said, pushed_said, shown_said,
};
use block_reading::{decode_into_block, decode_into_block_by};
use checking::{check_part, check_part_by};
use checks::{check_mandatory_table, check_table};
use edits::{clear_place, set_place};
use elements::element::State;
use elements::next::next_element;
use entries::push_by;
use findings::optional_ie_order_findings;
use indexing::index::iei_index;
use kept::{kept_clear, kept_count, kept_get, kept_push};
use length::generic_ie_length;
use mandatory::by::decode_mandatory_ies_by;
use mandatory::decode::decode_mandatory_ies;
use mandatory_writing::by::encode_mandatory_ies_by;
use mandatory_writing::encode::encode_mandatory_ies;
use order::order_get;
use part_answers::{
    decoded_said, encoded_said, found_said, mandated_said, part_checked_said, why_said, wrote_said,
};
use reading::{decode_optional_ies, decode_optional_ies_by};
use rows::index::place_of;
use seen::Seen;
use values::show::show;
use why::{why_set_aside, why_set_aside_by};
use writing::{encode_optional_ies, encode_optional_ies_by};

// The length of an unknown element from the octets from its first octet on: 0 and the length, or 1, cut short, and the octets missing.
#[unsafe(no_mangle)]
pub extern "C" fn nas_generic_ie_length(octets: &[u8], tlve_start: u8, values: &mut [u64; 5]) -> u32
    ensures { Says (length_answer (missing tlve_start octets.now) (unknown_length tlve_start octets.now)) result values.old values.new }
{
    length_said(generic_ie_length(octets, tlve_start), values)
}

// A table of optional elements: 0 where it passes, or 4 and its first bad row.
#[unsafe(no_mangle)]
pub extern "C" fn nas_check_table(table: &[u32], values: &mut [u64; 5]) -> u32
    ensures { Says (check_answer (first_bad (rows_of table.now))) result values.old values.new }
{
    checked_said(check_table(table), values)
}

// A table of mandatory rows: 0 where it passes, or 4 and its first bad row.
#[unsafe(no_mangle)]
pub extern "C" fn nas_check_mandatory_table(table: &[u32], values: &mut [u64; 5]) -> u32
    ensures { Says (check_answer (first_bad_mandatory (mandatory_rows_of table.now))) result values.old values.new }
{
    checked_said(check_mandatory_table(table), values)
}

// The index of a table of optional elements, into 256 lent octets: 0.
#[unsafe(no_mangle)]
pub extern "C" fn nas_iei_index(table: &[u32], index: &mut [u8; 256]) -> u32
    ensures { (result ≡ 0) × (index.new ≡ index_of (rows_of table.now)) }
{
    *index = iei_index(table);
    0
}

// What an index says of an IEI: 0 and the place, or 0 and no value. An index that ends before the IEI has no place for it.
#[unsafe(no_mangle)]
pub extern "C" fn nas_place_of(index: &[u8], iei: u8, values: &mut [u64; 5]) -> u32
    ensures { Says (place_answer (place_in index.now iei)) result values.old values.new }
{
    place_said(place_of(index, iei), values)
}

// An IEI and the octets after it behind the octets used of a kept log: 0 and the octets then used; 3; 11 and 2; 2 and 2.
#[unsafe(no_mangle)]
pub extern "C" fn nas_kept_push(
    log: &mut [u8],
    used: usize,
    iei: u8,
    octets: &[u8],
    values: &mut [u64; 5],
) -> u32
    ensures { Says (kept_push (used_of log.old used) iei octets.now).said result values.old values.new × (log.new ≡ (kept_push (used_of log.old used) iei octets.now).log) }
{
    pushed_said(kept_push(log, used, iei, octets), 2, 2, values)
}

// How many elements a kept log holds: 0 and the count; 3; 11 and 2.
#[unsafe(no_mangle)]
pub extern "C" fn nas_kept_count(log: &[u8], used: usize, values: &mut [u64; 5]) -> u32
    ensures { Says (kept_count (used_of log.now used)) result values.old values.new }
{
    counted_said(kept_count(log, used), values)
}

// The element of a kept log at a number from 0: 0, its start in the log, IEI first, and its length; past the last 0 and no
// value; 3; 11 and 2.
#[unsafe(no_mangle)]
pub extern "C" fn nas_kept_get(log: &[u8], used: usize, k: usize, values: &mut [u64; 5]) -> u32
    ensures { Says (kept_get (used_of log.now used) k) result values.old values.new }
{
    got_said(kept_get(log, used, k), values)
}

// Every element out of a kept log: 0 and 0, the octets then used. No octet changes.
#[unsafe(no_mangle)]
pub extern "C" fn nas_kept_clear(log: &[u8], used: usize, values: &mut [u64; 5]) -> u32
    ensures { Says (kept_clear (used_of log.now used)).said result values.old values.new }
{
    pushed_said(Ok(kept_clear(log, used)), 2, 2, values)
}

// An entry behind the octets used of an order log, 0 with the IEI, or 1 to 4, whatever the IEI: 0 and the octets then used; 3;
// 11 and 1, also for an entry over 4; 2 and 3.
#[unsafe(no_mangle)]
pub extern "C" fn nas_order_push(
    log: &mut [u8],
    used: usize,
    entry: u8,
    iei: u8,
    values: &mut [u64; 5],
) -> u32
    ensures { Says (order_push_by (used_of log.old used) «entry» iei).said result values.old values.new × (log.new ≡ (order_push_by (used_of log.old used) «entry» iei).log) }
{
    pushed_said(push_by(log, used, entry, iei), 1, 3, values)
}

// The entry of an order log at a number from 0: 0 and its octets; past the last 0 and no value; 3; 11 and 1.
#[unsafe(no_mangle)]
pub extern "C" fn nas_order_get(log: &[u8], used: usize, k: usize, values: &mut [u64; 5]) -> u32
    ensures { Says (order_get (used_of log.now used) k) result values.old values.new }
{
    entry_said(order_get(log, used, k), values)
}

// An optional part by a lent table, with the start number of the long form; option 0 is off, any other on. 0 and the octets
// used of the kept log and the order log; 4 and the first bad row; 3; 2 and which; 1, start, first octet,
// octets to the end and octets missing.
#[unsafe(no_mangle)]
pub extern "C" fn nas_read(
    part: &[u8],
    table: &[u32],
    tlve_start: u8,
    option: u8,
    rows: &mut [u32],
    kept: &mut [u8],
    order: &mut [u8],
    values: &mut [u64; 5],
) -> u32
    ensures { ReadSays (reading table.now tlve_start (not (eqb option 0)) part.now (lent_of rows.old kept.old order.old)) result values.old values.new rows.new kept.new order.new }
{
    decoded_said(
        decode_optional_ies(part, table, tlve_start, option != 0, rows, kept, order),
        values,
    )
}

// The same by table number, 0 for P and 1 to 6 for the real tables, with the start number 0x70; 5 for any other number.
#[unsafe(no_mangle)]
pub extern "C" fn nas_read_by(
    number: u32,
    part: &[u8],
    option: u8,
    rows: &mut [u32],
    kept: &mut [u8],
    order: &mut [u8],
    values: &mut [u64; 5],
) -> u32
    ensures { ReadSays (reading_by number (not (eqb option 0)) part.now (lent_of rows.old kept.old order.old)) result values.old values.new rows.new kept.new order.new }
{
    decoded_said(
        decode_optional_ies_by(number, part, option != 0, rows, kept, order),
        values,
    )
}

// The same by a lent table into one block: the kept log first, the order log directly behind it. 2 and 2 where the two together do
// not fit; else as nas_read.
#[unsafe(no_mangle)]
pub extern "C" fn nas_read_block(
    part: &[u8],
    table: &[u32],
    tlve_start: u8,
    option: u8,
    rows: &mut [u32],
    block: &mut [u8],
    values: &mut [u64; 5],
) -> u32
    ensures { BlockSays (reading_block table.now tlve_start (not (eqb option 0)) part.now rows.old block.old) result values.old values.new rows.new block.new }
{
    decoded_said(
        decode_into_block(part, table, tlve_start, option != 0, rows, block),
        values,
    )
}

// The same by table number, as with nas_read_by.
#[unsafe(no_mangle)]
pub extern "C" fn nas_read_block_by(
    number: u32,
    part: &[u8],
    option: u8,
    rows: &mut [u32],
    block: &mut [u8],
    values: &mut [u64; 5],
) -> u32
    ensures { BlockSays (reading_block_by number (not (eqb option 0)) part.now rows.old block.old) result values.old values.new rows.new block.new }
{
    decoded_said(
        decode_into_block_by(number, part, option != 0, rows, block),
        values,
    )
}

// Why the element of a number, from 0, came as it did. 0, and how it came: 0 accepted, 1 unknown, 2 malformed and its fault, 3
// repeated and 4 out of sequence, each with the start of its ground; 4 and the first bad row; 3; 1, start, first octet, octets to the
// end and octets missing; 27 where there is no such element.
#[unsafe(no_mangle)]
pub extern "C" fn nas_why(
    part: &[u8],
    table: &[u32],
    tlve_start: u8,
    option: u8,
    element: usize,
    values: &mut [u64; 5],
) -> u32
    ensures { Says (explaining table.now tlve_start (not (eqb option 0)) part.now element) result values.old values.new }
{
    why_said(
        why_set_aside(part, table, tlve_start, option != 0, element),
        values,
    )
}

// The same by table number; 5 for a number without a table.
#[unsafe(no_mangle)]
pub extern "C" fn nas_why_by(
    number: u32,
    part: &[u8],
    option: u8,
    element: usize,
    values: &mut [u64; 5],
) -> u32
    ensures { Says (explaining_by number (not (eqb option 0)) part.now element) result values.old values.new }
{
    why_said(why_set_aside_by(number, part, option != 0, element), values)
}

// Whether a part made by another program is accepted: 0; 4 and the first bad row; 3; 1, start, first octet, octets to the end and octets
// missing; 29 and the start of the first element that offends.
#[unsafe(no_mangle)]
pub extern "C" fn nas_check_part(
    part: &[u8],
    table: &[u32],
    tlve_start: u8,
    values: &mut [u64; 5],
) -> u32
    ensures { Says (checking table.now tlve_start part.now) result values.old values.new }
{
    part_checked_said(check_part(part, table, tlve_start), values)
}

// The same by table number.
#[unsafe(no_mangle)]
pub extern "C" fn nas_check_part_by(number: u32, part: &[u8], values: &mut [u64; 5]) -> u32
    ensures { Says (checking_by number part.now) result values.old values.new }
{
    part_checked_said(check_part_by(number, part), values)
}

// The element at a state of four numbers: position, places met from 0 to 63 and from 64 to 127, highest place. 0, its length,
// IEI, place or 255, and how it came, and the state is then behind it; at the end 0 and no value; 1, start, first octet,
// octets to the end and octets missing; 4 and the first bad row; 3.
#[unsafe(no_mangle)]
pub extern "C" fn nas_next(
    part: &[u8],
    table: &[u32],
    tlve_start: u8,
    option: u8,
    state: &mut [u64; 4],
    values: &mut [u64; 5],
) -> u32
    ensures { NextSays (next_of (rows_of table.now) tlve_start (not (eqb option 0)) part.now (state_by state.old)) result values.old values.new state.old state.new }
{
    let from = State {
        at: state[0] as usize,
        seen: Seen {
            low: state[1],
            high: state[2],
        },
        highest: state[3] as usize,
    };
    next_said(
        next_element(part, table, tlve_start, option != 0, from),
        state,
        values,
    )
}

// The value of a place, by the rows that reading wrote or setting changed: 0 and its source, start, length and IEI, of a half octet
// its four bits and IEI, of an absent place no value; 4 and the first bad row; 3; 2 and 1; 11 and 3; 10 and the place.
#[unsafe(no_mangle)]
pub extern "C" fn nas_show<'a>(
    table: &[u32],
    rows: &[u32],
    received: &'a [u8],
    set: &'a [u8],
    used: usize,
    place: usize,
    values: &mut [u64; 5],
) -> u32
    ensures { Says (showing table.now rows.now received.now (used_of set.now used) place) result values.old values.new }
{
    shown_said(show(table, rows, received, set, used, place), values)
}

// A value for a place, behind the set octets that are used, under the IEI that the order log gives the place: 0 and the set octets
// then used; 4 and the first bad row; 3; 2 and 1; 11 and 1 or 3; 10 and the place; 12 and the set octets needed.
#[unsafe(no_mangle)]
pub extern "C" fn nas_set(
    table: &[u32],
    rows: &mut [u32],
    received: &[u8],
    set: &mut [u8],
    used: usize,
    order: &[u8],
    order_used: usize,
    place: usize,
    value: &[u8],
    values: &mut [u64; 5],
) -> u32
    ensures { EditSays (setting table.now rows.old received.now (used_of set.old used) (used_of order.now order_used) place value.now) result values.old values.new rows.new set.new }
{
    edited_said(
        set_place(
            table, rows, received, set, used, order, order_used, place, value,
        ),
        values,
    )
}

// A place without a value: 0; 4 and the first bad row; 3; 2 and 1; 11 and 3.
#[unsafe(no_mangle)]
pub extern "C" fn nas_clear(
    table: &[u32],
    rows: &mut [u32],
    received: &[u8],
    set: &[u8],
    used: usize,
    place: usize,
    values: &mut [u64; 5],
) -> u32
    ensures { EditSays (clearing table.now rows.old received.now (used_of set.now used) place) result values.old values.new rows.new set.now }
{
    edited_said(clear_place(table, rows, received, set, used, place), values)
}

// An optional part from its place rows, the received and the set octets, and both logs: 0 and the octets written; 4 and the first
// bad row; 3; 2 and 1; 11 and which; 10 and the lowest place; 12 and the octets needed.
#[unsafe(no_mangle)]
pub extern "C" fn nas_write<'a>(
    table: &[u32],
    rows: &[u32],
    received: &'a [u8],
    set: &'a [u8],
    set_used: usize,
    kept: &[u8],
    kept_used: usize,
    order: &[u8],
    order_used: usize,
    output: &mut [u8],
    values: &mut [u64; 5],
) -> u32
    ensures { WriteSays (writing table.now rows.now received.now (used_of set.now set_used) (used_of order.now order_used) (used_of kept.now kept_used) output.old) result values.old values.new output.new }
{
    encoded_said(
        encode_optional_ies(
            table, rows, received, set, set_used, kept, kept_used, order, order_used, output,
        ),
        values,
    )
}

// The same by table number, 0 for P and 1 to 6 for the real tables; 5 for any other number.
#[unsafe(no_mangle)]
pub extern "C" fn nas_write_by<'a>(
    number: u32,
    rows: &[u32],
    received: &'a [u8],
    set: &'a [u8],
    set_used: usize,
    kept: &[u8],
    kept_used: usize,
    order: &[u8],
    order_used: usize,
    output: &mut [u8],
    values: &mut [u64; 5],
) -> u32
    ensures { WriteSays (writing_by number rows.now received.now (used_of set.now set_used) (used_of order.now order_used) (used_of kept.now kept_used) output.old) result values.old values.new output.new }
{
    encoded_said(
        encode_optional_ies_by(
            number, rows, received, set, set_used, kept, kept_used, order, order_used, output,
        ),
        values,
    )
}

// Mandatory rows from the front of a part; lenient 0 is off, any other on. 0, the octets read and how many notes there are; 4 and
// the first bad row; 3; 2 and 1; 6, 7, 8 or 9, the row and how many notes. The notes are row and number each, two numbers.
#[unsafe(no_mangle)]
pub extern "C" fn nas_read_mandatory(
    part: &[u8],
    table: &[u32],
    lenient: u8,
    rows: &mut [u32],
    notes: &mut [u32; 64],
    values: &mut [u64; 5],
) -> u32
    ensures { MandatorySays (mandatory_reading table.now (not (eqb lenient 0)) part.now rows.old) result values.old values.new notes.old notes.new rows.new }
{
    mandated_said(
        decode_mandatory_ies(part, table, lenient != 0, rows),
        notes,
        values,
    )
}

// The same by table number, 0 for no row and 1 to 6 for the real tables; 5 for any other number.
#[unsafe(no_mangle)]
pub extern "C" fn nas_read_mandatory_by(
    number: u32,
    part: &[u8],
    lenient: u8,
    rows: &mut [u32],
    notes: &mut [u32; 64],
    values: &mut [u64; 5],
) -> u32
    ensures { MandatorySays (mandatory_reading_by number (not (eqb lenient 0)) part.now rows.old) result values.old values.new notes.old notes.new rows.new }
{
    mandated_said(
        decode_mandatory_ies_by(number, part, lenient != 0, rows),
        notes,
        values,
    )
}

// Mandatory rows one after the other, from the lent rows, the received and the set octets: 0 and the octets written; 4 and the
// first bad row; 3; 2 and 1; 11 and 3; 10 and the lowest row; 12 and the octets needed.
#[unsafe(no_mangle)]
pub extern "C" fn nas_write_mandatory<'a>(
    table: &[u32],
    rows: &[u32],
    received: &'a [u8],
    set: &'a [u8],
    set_used: usize,
    output: &mut [u8],
    values: &mut [u64; 5],
) -> u32
    ensures { RowsWriteSays (mandatory_writing table.now rows.now received.now (used_of set.now set_used) output.old) result values.old values.new output.new }
{
    wrote_said(
        encode_mandatory_ies(table, rows, received, set, set_used, output),
        values,
    )
}

// The same by table number, 0 for no row and 1 to 6 for the real tables; 5 for any other number.
#[unsafe(no_mangle)]
pub extern "C" fn nas_write_mandatory_by<'a>(
    number: u32,
    rows: &[u32],
    received: &'a [u8],
    set: &'a [u8],
    set_used: usize,
    output: &mut [u8],
    values: &mut [u64; 5],
) -> u32
    ensures { RowsWriteSays (mandatory_writing_by number rows.now received.now (used_of set.now set_used) output.old) result values.old values.new output.new }
{
    wrote_said(
        encode_mandatory_ies_by(number, rows, received, set, set_used, output),
        values,
    )
}

// What is wrong with the order of a part, by its logs: two numbers each, an entry of the order log from 0 and its kind from 1 to 5.
// 0 and how many; 4 and the first bad row; 3; 11 and 1 or 2; 2 and 4.
#[unsafe(no_mangle)]
pub extern "C" fn nas_findings(
    table: &[u32],
    kept: &[u8],
    kept_used: usize,
    order: &[u8],
    order_used: usize,
    findings: &mut [u32],
    values: &mut [u64; 5],
) -> u32
    ensures { FindingSays (finding table.now (used_of order.now order_used) (used_of kept.now kept_used) findings.old) result values.old values.new findings.new }
{
    found_said(
        optional_ie_order_findings(table, kept, kept_used, order, order_used, findings),
        values,
    )
}
