// Why an element of an optional part came as it did: its verdict with its ground.
#![tactic(auto)]

ghost use Rattle.std.specs.Prelude.{◌≡◌, ◌≤◌, length};
ghost use Rattle.std.proofs.Math.Option.{none};
ghost use Rattle.definitions.specs.Rows.{rows_of, first_bad};
ghost use Rattle.definitions.specs.Elements.{parted};
ghost use Rattle.definitions.specs.Why.{fault_in, explaining, explaining_by};
ghost use Rattle.rows.specs.Indexed.{Indexed};
ghost use Rattle.rows.specs.Numbers.{row_said};
ghost use Rattle.seen.specs.Seen.{set_of};
ghost use Rattle.why.specs.Whys.{fault_for, why_in, why_as, entered, start_at, aside_by, ground_by};

use checks::{BadRow, check_and_index};
use elements::element::{Cut, Element, element_step, frame};
use elements::next::start_state;
use octets::{MOST_OCTETS, part};
use order::{IgnoredIeReason, Placed};
use real::{TLVE_START, numbered};
use rows::columns::{Numbers, form_of, numbers_at};
use seen::Seen;

// What is wrong with a malformed element, the first that is true.
#[derive(Clone, Copy, PartialEq, Eq)]
pub enum Fault {
    CutShort,
    UnderLeast,
    KindBarred,
}

// How an element came and why: of a malformed one its fault; of a repeated one the start of the first element of its place; of one
// out of sequence the start of the first element of the highest place met before it.
#[derive(Clone, Copy, PartialEq, Eq)]
pub enum Why {
    Accepted,
    Unknown,
    Malformed(Fault),
    Repeated(usize),
    OutOfSequence(usize),
}

// Why that is not told: there is no such element; the part is cut short, or too long; the table fails its check; no table has the number.
#[derive(Clone, Copy, PartialEq, Eq)]
pub enum WhyError {
    NoElement,
    CutShort(Cut),
    TooLong,
    BadTable(usize),
    NoTable,
}

impl From<Cut> for WhyError {
    ghost use Rattle.why.specs.declared.WhyError.{WhyError};

    ghost from_gives = { λ cut e. e ≡ WhyError.CutShort cut };

    fn from(cut: Cut) -> WhyError {
        WhyError::CutShort(cut)
    }
}

impl From<BadRow> for WhyError {
    ghost use Rattle.why.specs.declared.WhyError.{WhyError};

    ghost from_gives = { λ bad e. e ≡ WhyError.BadTable bad.0 };

    fn from(bad: BadRow) -> WhyError {
        WhyError::BadTable(bad.0)
    }
}

// What is wrong with an element, by its own octets and its row.
fn fault_in(element: &[u8], row: Numbers) -> Fault
    ensures { result ≡ fault_for (fault_in (row_said row) element.now) }
{
    if frame(form_of(row.code, row.size), element).is_none() {
        return Fault::CutShort;
    }
    if element.len() < row.least {
        return Fault::UnderLeast;
    }
    Fault::KindBarred
}

// The start of the first element of a place.
fn start_of(starts: &[usize; 128], place: usize) -> usize
    ensures { result ≡ start_at starts.now place }
{
    starts.get(place).copied().unwrap_or(0)
}

// Enters the start of an element that has a place, if it is the first of it.
fn enter(starts: &mut [usize; 128], seen: Seen, place: Option<usize>, start: usize)
    ensures { starts.new ≡ entered (set_of seen) place start starts.old }
{
    let Some(place) = place else {
        return;
    };
    if place < 128 && !seen.has(place) {
        starts[place] = start;
    }
}

// The ground of an element that is set aside, by the starts of the first elements of the places before it and the highest of these.
fn aside(
    octets: &[u8],
    row: Numbers,
    starts: &[usize; 128],
    highest: usize,
    place: usize,
    reason: IgnoredIeReason,
) -> Why
    ensures { result ≡ aside_by octets.now (row_said row) starts.now highest place reason }
{
    match reason {
        IgnoredIeReason::Malformed => Why::Malformed(fault_in(octets, row)),
        IgnoredIeReason::Repeated => Why::Repeated(start_of(starts, place)),
        IgnoredIeReason::OutOfSequence => Why::OutOfSequence(start_of(starts, highest)),
    }
}

fn ground(octets: &[u8], table: &[u32], starts: &[usize; 128], highest: usize, e: Element) -> Why
    ensures { result ≡ ground_by octets.now table.now starts.now highest e }
{
    match (e.placed, e.place) {
        (Placed::Known(_), _) => Why::Accepted,
        (Placed::Ignored(reason), Some(place)) => aside(
            part(octets, e.start, e.len),
            numbers_at(table, place),
            starts,
            highest,
            place,
            reason,
        ),
        (Placed::Unknown, _) | (Placed::Ignored(_), None) => Why::Unknown,
    }
}

// One pass over a part, to its end: a cut behind the element refuses it too.
fn walk(
    octets: &[u8],
    table: &[u32],
    index: &[u8; 256],
    tlve_start: u8,
    option: bool,
    number: usize,
) -> Result<Why, WhyError>
    requires { Indexed table.now index.now × (length octets.now ≤ 65535) }
    ensures { result ≡ why_in (rows_of table.now) number (parted (rows_of table.now) tlve_start option octets.now) }
{
    let mut starts = [0usize; 128];
    let mut state = start_state();
    let mut why = Err(WhyError::NoElement);
    let mut count = 0;
    while let Some((e, next)) = element_step(octets, table, index, tlve_start, option, state)? {
        if count == number {
            why = Ok(ground(octets, table, &starts, state.highest, e));
        }
        enter(&mut starts, state.seen, e.place, e.start);
        state = next;
        count += 1;
    }
    why
}

// By a table that passes its check, and its index.
fn why_by_index(
    octets: &[u8],
    table: &[u32],
    index: &[u8; 256],
    tlve_start: u8,
    option: bool,
    number: usize,
) -> Result<Why, WhyError>
    requires { Indexed table.now index.now × (first_bad (rows_of table.now) ≡ none) }
    ensures { why_as result ≡ explaining table.now tlve_start option octets.now number }
{
    if octets.len() > MOST_OCTETS {
        return Err(WhyError::TooLong);
    }
    walk(octets, table, index, tlve_start, option, number)
}

// Why the element of a number, from 0, came as it did, by a lent table.
pub fn why_set_aside(
    octets: &[u8],
    table: &[u32],
    tlve_start: u8,
    out_of_sequence: bool,
    number: usize,
) -> Result<Why, WhyError>
    ensures { why_as result ≡ explaining table.now tlve_start out_of_sequence octets.now number }
{
    let mut index = [255u8; 256];
    check_and_index(table, &mut index)?;
    why_by_index(octets, table, &index, tlve_start, out_of_sequence, number)
}

// The same by table number: 0 is P, 1 to 6 the real tables.
pub fn why_set_aside_by(
    number: u32,
    octets: &[u8],
    out_of_sequence: bool,
    element: usize,
) -> Result<Why, WhyError>
    ensures { why_as result ≡ explaining_by number out_of_sequence octets.now element }
{
    let table = numbered(number).ok_or(WhyError::NoTable)?;
    why_by_index(
        octets,
        table.rows,
        table.index,
        TLVE_START,
        out_of_sequence,
        element,
    )
}
