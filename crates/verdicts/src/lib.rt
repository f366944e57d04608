// What nas-check prints of a part, into a lent buffer: one line, and behind that of an offender its line of the listing.
#![tactic(auto)]

ghost use Rattle.std.specs.Prelude.{◌≡◌, [], ◌∷◌, false, ◌≤◌, length};
ghost use Rattle.definitions.specs.Basic.{over, answer};
ghost use Rattle.definitions.specs.Rows.{rows_of};
ghost use Rattle.definitions.specs.Tables.{start_of};
ghost use Rattle.definitions.specs.Elements.{parted, elements_of};
ghost use Rattle.checking.specs.Checks.{part_check_as};
ghost use Rattle.wording.specs.Puts.{Put};
ghost use Rattle.verdicts.specs.Verdicts.{ReadWhole, line_at, line_by, check_text, check_telling, check_refused, check_said};

use checking::{PartError, check_part_by};
use elements::next::{next_element, start_state};
use real::{TLVE_START, numbered};
use wording::{MOST_LISTED, Told, say, say_cut, say_line, say_number};

// The line of the element that starts at a position, of a part that is read whole.
fn put_line_at(octets: &[u8], table: &[u32], at: usize, out: &mut [u8], used: usize) -> usize
    requires { ReadWhole table.now octets.now × (used ≤ 32) }
    ensures { Put out.old used (line_at at (elements_of (parted (rows_of table.now) start_of false octets.now))) out.new result }
{
    let mut state = start_state();
    while let Some((e, next)) = next_element(octets, table, TLVE_START, false, state).unwrap_or(
        None,
    ) {
        if e.start == at {
            return say_line(out, used, e);
        }
        state = next;
    }
    used
}

// The same of the first offender, by table number.
fn put_offender(number: u32, octets: &[u8], at: usize, out: &mut [u8], used: usize) -> usize
    requires { (used ≤ 32) × (answer 29 (at ∷ []) ≡ check_telling number octets.now) }
    ensures { Put out.old used (line_by number octets.now at) out.new result }
{
    match numbered(number) {
        Some(table) => put_line_at(octets, table.rows, at, out, used),
        None => used,
    }
}

fn put_check(number: u32, octets: &[u8], check: Result<(), PartError>, out: &mut [u8]) -> usize
    requires { part_check_as check ≡ check_telling number octets.now }
    ensures { Put out.old 0 (check_said number octets.now check) out.new result }
{
    match check {
        Ok(()) => say(out, 0, b"accepted\n"),
        Err(PartError::Offends(start)) => {
            let next = say(out, 0, b"refused 29 at ");
            let used = say_number(out, next, start);
            put_offender(number, octets, start, out, used)
        }
        Err(PartError::CutShort(cut)) => say_cut(out, 0, cut),
        Err(PartError::TooLong) => say(out, 0, b"too long\n"),
        Err(PartError::BadTable(_)) => 0,
        Err(PartError::NoTable) => 0,
    }
}

// The answer that is told.
fn check_told(number: u32, octets: &[u8]) -> Result<(), PartError>
    ensures { part_check_as result ≡ check_telling number octets.now }
{
    if octets.len() > MOST_LISTED {
        return Err(PartError::TooLong);
    }
    check_part_by(number, octets)
}

// Whether a part that another program made is accepted, by table number, in the front of a lent buffer.
pub fn check_text(number: u32, octets: &[u8], out: &mut [u8; 64]) -> Told
    ensures len_value { result.len ≡ length (check_text number octets.now) }
    ensures refused_value { result.refused ≡ check_refused number octets.now }
    ensures out_after { out.new ≡ over (check_text number octets.now) out.old }
{
    let check = check_told(number, octets);
    Told {
        refused: check.is_err(),
        len: put_check(number, octets, check, out),
    }
}
