// The faults that lenient reading takes note of, at most one a row.
ghost use Rattle.std.specs.Prelude.{◌≡◌, ◌<◌};
ghost use Rattle.mandatory.specs.Notes.{no_notes, with_note, with_fault};

use mandatory_ie::Fault;

// A row and its fault's number, 8 or 9.
#[derive(Clone, Copy, PartialEq, Eq)]
pub struct Note {
    pub row: u32,
    pub number: u32,
}

// The first so many are notes, in the order of the rows; the others are zeros.
#[derive(Clone, Copy)]
pub struct Notes {
    pub count: usize,
    pub notes: [Note; 32],
}

pub fn no_notes() -> Notes
    ensures { result ≡ no_notes }
{
    Notes {
        count: 0,
        notes: [Note { row: 0, number: 0 }; 32],
    }
}

// With a note more.
fn with_note(notes: Notes, row: usize, number: u32) -> Notes
    requires { (notes.count < 32) × (row < 4294967296) }
    ensures { result ≡ with_note notes row number }
{
    let at = notes.count;
    let mut with = notes;
    with.notes[at] = Note {
        row: row as u32,
        number,
    };
    with.count = at + 1;
    with
}

// With the fault of a row noted, if it has one.
pub(crate) fn with_fault(notes: Notes, row: usize, fault: Option<Fault>) -> Notes
    requires { (notes.count < 32) × (row < 4294967296) }
    ensures { result ≡ with_fault notes row fault }
{
    match fault {
        None => notes,
        Some(Fault::TooShort) => with_note(notes, row, 8),
        Some(Fault::Syntax) => with_note(notes, row, 9),
    }
}
