// Each answer as document 01's number, which is returned, and its values in five lent places: how many there are, then the
// values in document 01's order. The places behind them stay as they were.
#![tactic(auto)]

ghost use Rattle.std.specs.Prelude.{◌≡◌, [], ◌∷◌};
ghost use Rattle.definitions.specs.Basic.{answer};
ghost use Rattle.definitions.specs.Logs.{order_entry};
ghost use Rattle.edits.specs.Edits.{edited_as};
ghost use Rattle.kept.specs.Kept.{pushed_as, counted_as, got_as};
ghost use Rattle.order.specs.Order.{placed_as, entry_as};
ghost use Rattle.values.specs.Shows.{shown_as};
ghost use Rattle.rows.specs.Answers.{place_as};
ghost use Rattle.checks.specs.Answers.{checked_as};
ghost use Rattle.answers.specs.Nexts.{state_numbers, verdict_number, place_number, NextSays};
ghost use Rattle.elements.specs.Steps.{cut_answer};
ghost use Rattle.answers.specs.Says.{put, Says, check_answer, place_answer, length_as};

use checks::BadRow;
use edits::{EditError, Edited};
use elements::element::{Cut, Element, State};
use elements::next::NextError;
use kept::{LogError, PushError, Span};
use length::CutShort;
use order::{IgnoredIeReason, Placed};
use values::show::{ShowError, Shown};

// A number with no value, and with one to four of them: how many, then each.
pub fn none(number: u32, values: &mut [u64; 5]) -> u32
    ensures { Says (answer number []) result values.old values.new }
{
    values[0] = 0;
    number
}

pub fn one(number: u32, a: u64, values: &mut [u64; 5]) -> u32
    ensures { Says (answer number (a ∷ [])) result values.old values.new }
{
    values[0] = 1;
    values[1] = a;
    number
}

pub fn two(number: u32, a: u64, b: u64, values: &mut [u64; 5]) -> u32
    ensures { Says (answer number (a ∷ b ∷ [])) result values.old values.new }
{
    values[0] = 2;
    values[1] = a;
    values[2] = b;
    number
}

pub fn four(number: u32, a: u64, b: u64, c: u64, d: u64, values: &mut [u64; 5]) -> u32
    ensures { Says (answer number (a ∷ b ∷ c ∷ d ∷ [])) result values.old values.new }
{
    values[0] = 4;
    values[1] = a;
    values[2] = b;
    values[3] = c;
    values[4] = d;
    number
}

pub fn length_said(length: Result<usize, CutShort>, values: &mut [u64; 5]) -> u32
    ensures { Says (length_as length) result values.old values.new }
{
    match length {
        Ok(n) => one(0, n as u64, values),
        Err(CutShort { missing }) => one(1, missing as u64, values),
    }
}

pub fn checked_said(checked: Result<(), BadRow>, values: &mut [u64; 5]) -> u32
    ensures { Says (check_answer (checked_as checked)) result values.old values.new }
{
    match checked {
        Ok(()) => none(0, values),
        Err(BadRow(row)) => one(4, row as u64, values),
    }
}

pub fn place_said(place: Option<usize>, values: &mut [u64; 5]) -> u32
    ensures { Says (place_answer (place_as place)) result values.old values.new }
{
    match place {
        Some(k) => one(0, k as u64, values),
        None => none(0, values),
    }
}

// A malformed log and a log without room have the numbers of that log: 2 and 2 of the kept log, 1 and 3 of the order log.
pub fn pushed_said(
    pushed: Result<usize, PushError>,
    which: u64,
    room: u64,
    values: &mut [u64; 5],
) -> u32
    ensures { Says (pushed_as which room pushed) result values.old values.new }
{
    match pushed {
        Ok(n) => one(0, n as u64, values),
        Err(PushError::TooLong) => none(3, values),
        Err(PushError::Malformed) => one(11, which, values),
        Err(PushError::NoRoom) => one(2, room, values),
    }
}

pub fn counted_said(counted: Result<usize, LogError>, values: &mut [u64; 5]) -> u32
    ensures { Says (counted_as counted) result values.old values.new }
{
    match counted {
        Ok(n) => one(0, n as u64, values),
        Err(LogError::TooLong) => none(3, values),
        Err(LogError::Malformed) => one(11, 2, values),
    }
}

pub fn got_said(got: Result<Option<Span>, LogError>, values: &mut [u64; 5]) -> u32
    ensures { Says (got_as got) result values.old values.new }
{
    match got {
        Ok(Some(Span { start, len })) => two(0, start as u64, len as u64, values),
        Ok(None) => none(0, values),
        Err(LogError::TooLong) => none(3, values),
        Err(LogError::Malformed) => one(11, 2, values),
    }
}

// The entry of a reason.
fn reason_said(reason: IgnoredIeReason, values: &mut [u64; 5]) -> u32
    ensures { Says (answer 0 (order_entry (placed_as (Placed.Ignored reason)))) result values.old values.new }
{
    match reason {
        IgnoredIeReason::Malformed => one(0, 2, values),
        IgnoredIeReason::Repeated => one(0, 3, values),
        IgnoredIeReason::OutOfSequence => one(0, 4, values),
    }
}

fn placed_said(placed: Placed, values: &mut [u64; 5]) -> u32
    ensures { Says (answer 0 (order_entry (placed_as placed))) result values.old values.new }
{
    match placed {
        Placed::Known(iei) => two(0, 0, iei as u64, values),
        Placed::Unknown => one(0, 1, values),
        Placed::Ignored(reason) => reason_said(reason, values),
    }
}

pub fn entry_said(entry: Result<Option<Placed>, LogError>, values: &mut [u64; 5]) -> u32
    ensures { Says (entry_as entry) result values.old values.new }
{
    match entry {
        Ok(Some(placed)) => placed_said(placed, values),
        Ok(None) => none(0, values),
        Err(LogError::TooLong) => none(3, values),
        Err(LogError::Malformed) => one(11, 1, values),
    }
}

pub fn shown_said(shown: Result<Option<Shown>, ShowError>, values: &mut [u64; 5]) -> u32
    ensures { Says (shown_as shown) result values.old values.new }
{
    match shown {
        Ok(None) => none(0, values),
        Ok(Some(Shown::Half(x, iei))) => two(0, u64::from(x), u64::from(iei), values),
        Ok(Some(Shown::Value(row))) => four(
            0,
            u64::from(row.source),
            u64::from(row.start),
            u64::from(row.len),
            u64::from(row.iei),
            values,
        ),
        Err(ShowError::BadTable(row)) => one(4, row as u64, values),
        Err(ShowError::TooLong) => none(3, values),
        Err(ShowError::NoRoom) => one(2, 1, values),
        Err(ShowError::Malformed) => one(11, 3, values),
        Err(ShowError::Unfit(place)) => one(10, place as u64, values),
    }
}

pub fn edited_said(edited: Edited, values: &mut [u64; 5]) -> u32
    ensures { Says (edited_as edited) result values.old values.new }
{
    match edited {
        Ok(Some(used)) => one(0, used as u64, values),
        Ok(None) => none(0, values),
        Err(EditError::BadTable(row)) => one(4, row as u64, values),
        Err(EditError::TooLong) => none(3, values),
        Err(EditError::NoRoom) => one(2, 1, values),
        Err(EditError::MalformedLog) => one(11, 1, values),
        Err(EditError::Malformed) => one(11, 3, values),
        Err(EditError::Unfit(place)) => one(10, place as u64, values),
        Err(EditError::NoSet(need)) => one(12, need as u64, values),
    }
}

// Why an element was set aside.
fn reason_number(reason: IgnoredIeReason) -> u64
    ensures { result ≡ verdict_number (Placed.Ignored reason) }
{
    match reason {
        IgnoredIeReason::Malformed => 2,
        IgnoredIeReason::Repeated => 3,
        IgnoredIeReason::OutOfSequence => 4,
    }
}

// How an element came.
fn verdict_of(placed: Placed) -> u64
    ensures { result ≡ verdict_number placed }
{
    match placed {
        Placed::Known(_) => 0,
        Placed::Unknown => 1,
        Placed::Ignored(reason) => reason_number(reason),
    }
}

fn put_state(s: State, state: &mut [u64; 4])
    ensures { state.new ≡ put (state_numbers s) state.old }
{
    state[0] = s.at as u64;
    state[1] = s.seen.low;
    state[2] = s.seen.high;
    state[3] = s.highest as u64;
}

// The four values of an unknown element that is cut short.
pub fn cut_said(cut: Cut, values: &mut [u64; 5]) -> u32
    ensures { Says (cut_answer cut) result values.old values.new }
{
    four(
        1,
        cut.start as u64,
        u64::from(cut.first),
        cut.left as u64,
        cut.missing as u64,
        values,
    )
}

// The place of an element as a number, 255 where it has none.
fn place_number(place: Option<usize>) -> u64
    ensures { result ≡ place_number place }
{
    place.map_or(255, |place| place as u64)
}

pub fn next_said(
    next: Result<Option<(Element, State)>, NextError>,
    state: &mut [u64; 4],
    values: &mut [u64; 5],
) -> u32
    ensures { NextSays next result values.old values.new state.old state.new }
{
    match next {
        Ok(Some((e, after))) => {
            put_state(after, state);
            four(
                0,
                e.len as u64,
                u64::from(e.iei),
                place_number(e.place),
                verdict_of(e.placed),
                values,
            )
        }
        Ok(None) => none(0, values),
        Err(NextError::CutShort(cut)) => cut_said(cut, values),
        Err(NextError::TooLong) => none(3, values),
        Err(NextError::BadTable(row)) => one(4, row as u64, values),
    }
}
