// What nas-list prints of a part, into a lent buffer: by table number, with the option on or off.
#![tactic(auto)]

ghost use Rattle.std.specs.Prelude.{◌≡◌, ◌+◌, ◌≤◌, length, IsOk};
ghost use Rattle.std.proofs.Math.Option.{none};
ghost use Rattle.definitions.specs.Elements.{elements_of};
ghost use Rattle.definitions.specs.Rows.{rows_of, first_bad};
ghost use Rattle.definitions.specs.Listing.{lines, listing_by};
ghost use Rattle.wording.specs.Puts.{Put};
ghost use Rattle.listing.specs.Parts.{Passing, step_at, parted_by, whole_of, listing_of, listed_as, out_as, is_refused, is_refused_of};

use elements::element::{Cut, Element, State};
use elements::next::{NextError, next_element, start_state};
use real::{TLVE_START, numbered};
use wording::{MOST_LISTED, say, say_cut, say_end, say_line};

// No text is longer: the header, 4,096 lines of 25 octets, and the last line.
pub const MOST_TEXT: usize = 102_429;

// There is no room for a text, which needs so many octets.
#[derive(Clone, Copy, PartialEq, Eq)]
pub struct NoRoom {
    pub need: usize,
}

// What stands at a state's position: an element with the state behind it, or None at the end.
fn step(
    octets: &[u8],
    table: &[u32],
    option: bool,
    state: State,
) -> Result<Option<(Element, State)>, Cut>
    requires { Passing table.now octets.now }
    ensures { result ≡ step_at table.now option octets.now state }
{
    match next_element(octets, table, TLVE_START, option, state) {
        Ok(next) => Ok(next),
        Err(NextError::CutShort(cut)) => Err(cut),
        Err(NextError::TooLong) => Ok(None),
        Err(NextError::BadTable(_)) => Ok(None),
    }
}

// Whether a part is read whole, or is cut short.
fn read_whole(octets: &[u8], table: &[u32], option: bool) -> Result<(), Cut>
    requires { Passing table.now octets.now }
    ensures { result ≡ whole_of (parted_by table.now option octets.now) }
{
    let mut state = start_state();
    while let Some((_, next)) = step(octets, table, option, state)? {
        state = next;
    }
    Ok(())
}

// A line for each element of a part that is read whole.
fn put_lines(octets: &[u8], table: &[u32], option: bool, out: &mut [u8], first: usize) -> usize
    requires { Passing table.now octets.now × (first ≤ 32) × IsOk (whole_of (parted_by table.now option octets.now)) }
    ensures { (Put out.old first (lines (elements_of (parted_by table.now option octets.now))) out.new result) × (result ≤ first + 102400) }
{
    let mut state = start_state();
    let mut used = first;
    while let Some((e, next)) = step(octets, table, option, state).unwrap_or(None) {
        used = say_line(out, used, e);
        state = next;
    }
    used
}

// The whole text, as far as there is room, and its length.
fn put_text(octets: &[u8], table: &[u32], option: bool, out: &mut [u8]) -> usize
    requires { first_bad (rows_of table.now) ≡ none }
    ensures { Put out.old 0 (listing_by table.now option octets.now) out.new result × (result ≤ 102429) }
{
    let used = say(out, 0, b"at len iei verdict\n");
    if octets.len() > MOST_LISTED {
        return say(out, used, b"too long\n");
    }
    match read_whole(octets, table, option) {
        Ok(()) => {
            let next = put_lines(octets, table, option, out, used);
            say_end(out, next, octets.len())
        }
        Err(cut) => say_cut(out, used, cut),
    }
}

// By a table that passes its check.
fn list_by(octets: &[u8], table: &[u32], option: bool, out: &mut [u8]) -> Result<usize, NoRoom>
    requires { first_bad (rows_of table.now) ≡ none }
    ensures value { result ≡ listed_as (listing_by table.now option octets.now) out.old }
    ensures out_after { out.new ≡ out_as (listing_by table.now option octets.now) out.old }
    ensures octets_len_bound { length (listing_by table.now option octets.now) ≤ 102429 }
{
    let mut none = [0u8; 1];
    let n = put_text(octets, table, option, &mut none);
    if n > out.len() {
        return Err(NoRoom { need: n });
    }
    put_text(octets, table, option, out);
    Ok(n)
}

// The listing of a part, by table number, into the front of a lent buffer: how many octets it has. Where there is no room for all of it, nothing is written.
// A number that names no table has an empty listing.
pub fn list_part(
    number: u32,
    octets: &[u8],
    out_of_sequence: bool,
    out: &mut [u8],
) -> Result<usize, NoRoom>
    ensures value { result ≡ listed_as (listing_of number out_of_sequence octets.now) out.old }
    ensures out_after { out.new ≡ out_as (listing_of number out_of_sequence octets.now) out.old }
    ensures octets_len_bound { length (listing_of number out_of_sequence octets.now) ≤ 102429 }
{
    match numbered(number) {
        Some(table) => list_by(octets, table.rows, out_of_sequence, out),
        None => Ok(0),
    }
}

fn is_refused_by(octets: &[u8], table: &[u32], option: bool) -> bool
    requires { first_bad (rows_of table.now) ≡ none }
    ensures { result ≡ is_refused table.now option octets.now }
{
    octets.len() > MOST_LISTED || read_whole(octets, table, option).is_err()
}

// Whether a part is refused, so that its listing is the header and one line: it is too long, or cut short. Where no table has the
// number, every part is.
pub fn is_refused(number: u32, octets: &[u8], out_of_sequence: bool) -> bool
    ensures { result ≡ is_refused_of number out_of_sequence octets.now }
{
    match numbered(number) {
        Some(table) => is_refused_by(octets, table.rows, out_of_sequence),
        None => true,
    }
}
