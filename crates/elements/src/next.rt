// One element at a time, by a lent table: for listings and tools that look at each element.
ghost use Rattle.std.specs.Prelude.{◌≡◌};
ghost use Rattle.definitions.specs.Rows.{rows_of};
ghost use Rattle.rows.specs.Indexed.{Indexed};
ghost use Rattle.elements.specs.Nexts.{next_from, next_of, start_state};

use crate::element::{Cut, Element, State, element_step};
use checks::{BadRow, check_and_index};
use octets::MOST_OCTETS;
use seen::Seen;

// Why there is no element: the part is cut short there, or too long, or the table fails its check.
#[derive(Clone, Copy, PartialEq, Eq)]
pub enum NextError {
    CutShort(Cut),
    TooLong,
    BadTable(usize),
}

impl From<Cut> for NextError {
    ghost use Rattle.elements.specs.declared.next.NextError.{NextError};

    ghost from_gives = { λ cut e. e ≡ NextError.CutShort cut };

    fn from(cut: Cut) -> NextError {
        NextError::CutShort(cut)
    }
}

impl From<BadRow> for NextError {
    ghost use Rattle.elements.specs.declared.next.NextError.{NextError};

    ghost from_gives = { λ bad e. e ≡ NextError.BadTable bad.0 };

    fn from(bad: BadRow) -> NextError {
        NextError::BadTable(bad.0)
    }
}

// By a table that passes its check, and its index.
fn next_by_index(
    octets: &[u8],
    table: &[u32],
    index: &[u8; 256],
    tlve_start: u8,
    option: bool,
    state: State,
) -> Result<Option<(Element, State)>, NextError>
    requires { Indexed table.now index.now }
    ensures { result ≡ next_from (rows_of table.now) tlve_start option octets.now state }
{
    if octets.len() > MOST_OCTETS {
        return Err(NextError::TooLong);
    }
    let step = element_step(octets, table, index, tlve_start, option, state)?;
    Ok(step)
}

// The state from which a part is read.
pub fn start_state() -> State
    ensures { result ≡ start_state }
{
    State {
        at: 0,
        seen: Seen::new(),
        highest: 0,
    }
}

// What stands at a state's position: an element with the state behind it, or None at the end. The table is checked at each call.
pub fn next_element(
    octets: &[u8],
    table: &[u32],
    tlve_start: u8,
    out_of_sequence: bool,
    state: State,
) -> Result<Option<(Element, State)>, NextError>
    ensures { result ≡ next_of (rows_of table.now) tlve_start out_of_sequence octets.now state }
{
    let mut index = [255u8; 256];
    check_and_index(table, &mut index)?;
    next_by_index(octets, table, &index, tlve_start, out_of_sequence, state)
}
