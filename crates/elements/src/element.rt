// One element at a time: how long it is, whether its row takes it, and its verdict.
ghost use Rattle.std.specs.Prelude.{◌≡◌, ◌+◌, ◌≤◌, max, length, get_or};
ghost use Rattle.std.proofs.Math.Option.{some};
ghost use Rattle.definitions.specs.Basic.{receivable};
ghost use Rattle.definitions.specs.Rows.{rows_of, form, iei_of};
ghost use Rattle.definitions.specs.Length.{header, within, whole, unknown_length, missing, required};
ghost use Rattle.definitions.specs.Elements.{taken_by, judged};
ghost use Rattle.length.specs.Answers.{length_of};
ghost use Rattle.rows.specs.Forms.{form_as};
ghost use Rattle.rows.specs.Numbers.{row_said};
ghost use Rattle.elements.specs.Steps.{placed_for, fit_of, came_known, came_strange, state_at, place_at, stands_at};
ghost use Rattle.rows.specs.Indexed.{Indexed};
ghost use Rattle.by_index.specs.ByIndex.{rows_by};

use crate::walk::steps;
use length::{CutShort, UnknownKind, generic_ie_length, tlv_length, tlve_length, unknown_kind};
use order::{IgnoredIeReason, Placed};
use rows::columns::{Form, Numbers, form_of};
use seen::Seen;

// Where reading is: the position, the places met, and the highest of them.
#[derive(Clone, Copy, PartialEq, Eq)]
pub struct State {
    pub at: usize,
    pub seen: Seen,
    pub highest: usize,
}

// An element: its start and length, its IEI, its place if a row lists that, and how it came.
#[derive(Clone, Copy, PartialEq, Eq)]
pub struct Element {
    pub start: usize,
    pub len: usize,
    pub iei: u8,
    pub place: Option<usize>,
    pub placed: Placed,
}

// An unknown element that is cut short and must be understood: its start, its first octet, the octets from there to the end, and the
// octets missing.
#[derive(Clone, Copy, PartialEq, Eq)]
pub struct Cut {
    pub start: usize,
    pub first: u8,
    pub left: usize,
    pub missing: usize,
}

// How many octets an element has by its row, and whether the row takes it: one that it does not take has a length too.
#[derive(Clone, Copy, PartialEq, Eq)]
pub struct Fit {
    pub len: usize,
    pub taken: bool,
}

// How many octets an element has, and how it came.
#[derive(Clone, Copy, PartialEq, Eq)]
pub struct Came {
    pub len: usize,
    pub placed: Placed,
}

// The IEI of a first octet: from 0x80 up the top four bits, with zeros below.
pub fn iei_of(x: u8) -> u8
    ensures { result ≡ iei_of x }
{
    if x >= 0x80 { x & 0xf0 } else { x }
}

// The value rule, by whether the form is a half octet: an empty value, or one whose first octet's low four bits, of another form
// low three, are in the set.
pub fn receivable(half: bool, kinds: u32, value: &[u8]) -> bool
    ensures { result ≡ receivable half kinds value.now }
{
    let Some(&x) = value.first() else {
        return true;
    };
    if half {
        return (kinds >> (x % 16)) % 2 == 1;
    }
    (kinds >> (x % 8)) % 2 == 1
}

// The octets before the value.
pub fn header(form: Form) -> usize
    ensures { result ≡ header (form_as form) }
{
    match form {
        Form::Half => 0,
        Form::Fixed(_) => 1,
        Form::Tlv => 2,
        Form::TlvE => 3,
    }
}

// How long an element of a form is.
pub fn frame(form: Form, octets: &[u8]) -> Option<usize>
    ensures { result ≡ length_of (whole (form_as form) octets.now) }
{
    match form {
        Form::Half => fixed_length(0, octets),
        Form::Fixed(n) => fixed_length(n, octets),
        Form::Tlv => tlv_length(octets),
        Form::TlvE => tlve_length(octets),
    }
}

// The length of one octet and n octets behind it.
fn fixed_length(n: usize, octets: &[u8]) -> Option<usize>
    ensures { result ≡ length_of (within octets.now (some (1 + n))) }
{
    (n < octets.len()).then(|| 1 + n)
}

// Whether a complete element is one that its row takes: at least the least length, and receivable.
fn taken_by(row: Numbers, element: &[u8]) -> bool
    requires { Rattle.definitions.specs.Length.header (Rattle.definitions.specs.Rows.form (row_said row)) ≤ length element.now }
    ensures { result ≡ taken_by (row_said row) element.now }
{
    if element.len() < row.least {
        return false;
    }
    let h = header(form_of(row.code, row.size));
    receivable(row.code == 0, row.kinds, &element[h..])
}

// The verdict: accepted when its row takes it, not repeated, and in sequence or the option is on; else the first reason that
// is true.
fn judge(option: bool, again: bool, behind: bool, taken: bool, iei: u8) -> Placed
    ensures { result ≡ placed_for iei (judged option again behind taken) }
{
    if again {
        return Placed::Ignored(IgnoredIeReason::Repeated);
    }
    if behind {
        if option {
            if taken {
                return Placed::Known(iei);
            }
        }
        return Placed::Ignored(IgnoredIeReason::OutOfSequence);
    }
    if taken {
        return Placed::Known(iei);
    }
    Placed::Ignored(IgnoredIeReason::Malformed)
}

// Whether an unknown element asks to be understood.
fn must_be_understood(x: u8) -> bool
    ensures { result ≡ required x }
{
    match unknown_kind(x) {
        UnknownKind::Required => true,
        UnknownKind::OneOctet | UnknownKind::Other => false,
    }
}

// By its row, an element from its first octet on: cut short, it takes the rest.
pub fn fit_of(left: &[u8], row: Numbers) -> Fit
    ensures { result ≡ fit_of (row_said row) left.now }
{
    match frame(form_of(row.code, row.size), left) {
        Some(n) => Fit {
            len: n,
            taken: taken_by(row, &left[..n]),
        },
        None => Fit {
            len: left.len(),
            taken: false,
        },
    }
}

// An element that has a place, from its first octet on, by its row.
pub fn came_known(
    left: &[u8],
    row: Numbers,
    iei: u8,
    option: bool,
    again: bool,
    behind: bool,
) -> Came
    ensures { result ≡ came_known (row_said row) iei option again behind left.now }
{
    let fit = fit_of(left, row);
    Came {
        len: fit.len,
        placed: judge(option, again, behind, fit.taken, iei),
    }
}

// An element without a place, from its first octet on: as long as the unknown rule says; cut short, it is refused if it must be
// understood, else takes the rest.
pub fn came_unknown(left: &[u8], x: u8, tlve_start: u8) -> Result<Came, CutShort>
    ensures { result ≡ came_strange x (missing tlve_start left.now) left.now (unknown_length tlve_start left.now) }
{
    let len = match generic_ie_length(left, tlve_start) {
        Ok(len) => len,
        Err(cut) if must_be_understood(x) => return Err(cut),
        Err(_) => left.len(),
    };
    Ok(Came {
        len,
        placed: Placed::Unknown,
    })
}

// The place that an index has for an IEI; an entry from 128 on is none.
pub fn place_by(index: &[u8; 256], iei: u8) -> Option<usize>
    ensures { result ≡ place_at (get_or index.now iei 0) }
{
    let entry = usize::from(index[usize::from(iei)]);
    (entry < 128).then_some(entry)
}

// Where reading is behind an element that ends at a position, by its place if it has one.
pub fn after(state: State, place: Option<usize>, at: usize) -> State
    ensures { result ≡ state_at state place at }
{
    match place {
        None => State { at, ..state },
        Some(place) => State {
            at,
            seen: state.seen.with(place),
            highest: state.highest.max(place),
        },
    }
}

// What stands at a state's position, by a table and an index: an element with where reading is behind it, or None at the end. By its own
// index, of a table that passes its check, it is the step of reading.
pub fn element_step(
    part: &[u8],
    table: &[u32],
    index: &[u8; 256],
    tlve_start: u8,
    option: bool,
    state: State,
) -> Result<Option<(Element, State)>, Cut>
    ensures by_index { result ≡ stands_at (rows_by table.now index.now) tlve_start option part.now state }
    ensures own_index { Indexed table.now index.now → result ≡ stands_at (rows_of table.now) tlve_start option part.now state }
{
    let start = state.at;
    let Some(&x) = part.get(start) else {
        return Ok(None);
    };
    let walk = steps(part, table, index, tlve_start, option, state, 1)?;
    let next = walk.state;
    let iei = iei_of(x);
    let element = Element {
        start,
        len: next.at - start,
        iei,
        place: place_by(index, iei),
        placed: walk.placed,
    };
    Ok(Some((element, next)))
}
