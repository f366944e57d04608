// A short part is read in one pass, into arrays of its own, and copied out where there is room.
ghost use Rattle.std.specs.Prelude.{◌≡◌, ◌+◌, ◌*◌, ◌≤◌, length};
ghost use Rattle.definitions.specs.Rows.{rows_of};
ghost use Rattle.filling.specs.Decodes.{lent_of, Reads};
ghost use Rattle.filling.specs.Noted.{Fits, noted};

use copying::put_slice;
use filling::{DecodeError, Decoded, FillError, Room, fill_over};
use plain_reading::copy_rows;

// The octets of a part, and the numbers of rows, that the arrays hold. The arrays are of one of two lengths, since they are cleared at each
// call.
pub(crate) const MOST_SHORT: usize = 512;

pub(crate) const MOST_ROWS: usize = 160;

// Of the shorter arrays: both the octets and the numbers of rows.
pub(crate) const MOST_SHORTEST: usize = 64;

// The octets of each log: none needs more than twice those of the part.
pub(crate) const SHORT_LOG: usize = 1024;

pub(crate) const SHORTEST_LOG: usize = 128;

// A short part, with n numbers of rows, by arrays that hold what any part of its length needs: ROWS numbers, and LOG octets for each log.
pub(crate) fn decode_into<const ROWS: usize, const LOG: usize>(
    octets: &[u8],
    table: &[u32],
    index: &[u8; 256],
    tlve_start: u8,
    option: bool,
    n: usize,
    rows: &mut [u32],
    kept: &mut [u8],
    order: &mut [u8],
) -> Decoded
    requires { Fits table.now octets.now (length rows.old) × (n ≡ 4 * length (rows_of table.now)) × (n ≤ ROWS) × (length octets.now + length octets.now ≤ LOG) × (ROWS ≤ 160) × (LOG ≤ 1024) }
    ensures { Reads (noted table.now index.now tlve_start option octets.now (lent_of rows.old kept.old order.old)) result rows.new kept.new order.new }
{
    let mut found = [0u32; ROWS];
    let mut aside = [0u8; LOG];
    let mut entries = [0u8; LOG];
    let filled = fill_over(
        octets,
        table,
        index,
        tlve_start,
        option,
        &mut found,
        &mut aside,
        &mut entries,
    );
    let used = match filled {
        Ok(used) => used,
        Err(FillError::CutShort(cut)) => return Err(DecodeError::CutShort(cut)),
        Err(FillError::NoRoom) => unreachable!(),
    };
    if kept.len() < used.kept {
        return Err(DecodeError::NoRoom(Room::Kept));
    }
    if order.len() < used.order {
        return Err(DecodeError::NoRoom(Room::Order));
    }
    copy_rows(rows, &found, n);
    put_slice(kept, &aside[..used.kept]);
    put_slice(order, &entries[..used.order]);
    Ok(used)
}
