// Runs the recorded list on standard input through our reading of mandatory rows, and prints how many cases there are of each number, how many
// answers are the recorded ones in number, values, notes and all lent rows, and each case that is not. README.md has the format.
#![tactic(auto)]

use mandatory::by::decode_mandatory_ies_by;
use mandatory::decode::{MandatoryRead, decode_mandatory_ies};
use mandatory::notes::{Note, Notes};
use part_answers::mandated_said;
use recorded::lent::lent_numbers;
use recorded::runs::{Ran, RunCase, run_input};
use recorded::{LENT_TABLE, Position, front};
use std::io::Result;

// A case of the list: by which table, lenient or not, and where its parts stand.
#[derive(Clone, Copy)]
struct Case<'a> {
    number: u8,
    lenient: bool,
    table_at: Position<'a>,
    room_at: Position<'a>,
    part_at: Position<'a>,
    said_at: Position<'a>,
    rows_at: Position<'a>,
    notes_at: Position<'a>,
    end: Position<'a>,
}

fn case_at(at: Position) -> Case {
    let table_at = at.after(2);
    let lenient_at = table_at.numbers_end();
    let room_at = lenient_at.after(1);
    let part_at = room_at.after(2);
    let said_at = part_at.string_end();
    let rows_at = said_at.answer_end();
    let notes_at = rows_at.numbers_end();
    Case {
        number: at.after(1).octet(),
        lenient: lenient_at.octet() != 0,
        table_at,
        room_at,
        part_at,
        said_at,
        rows_at,
        notes_at,
        end: notes_at.numbers_end(),
    }
}

// Whether a note is the recorded one there, or zeros behind them.
fn note_is(at: Position, is_recorded: bool, note: Note) -> bool {
    if is_recorded {
        return at.four() == note.row && at.after(4).four() == note.number;
    }
    note.row == 0 && note.number == 0
}

// Whether the notes are the recorded ones, two numbers each, and zeros behind them.
fn notes_are(at: Position, notes: Notes) -> bool {
    let n = at.two() / 2;
    n == notes.count
        && notes
            .notes
            .iter()
            .enumerate()
            .all(|(i, note)| note_is(at.after(2 + 8 * i), i < n, *note))
}

impl Case<'_> {
    // By the table of the case, of exactly what it lends.
    fn read(&self, table: &[u32], octets: &[u8], rows: &mut [u32]) -> MandatoryRead {
        if self.number == LENT_TABLE {
            return decode_mandatory_ies(octets, table, self.lenient, rows);
        }
        decode_mandatory_ies_by(u32::from(self.number), octets, self.lenient, rows)
    }

    // Whether the number and its values, of which one is how many notes there are, are the recorded ones.
    fn said_is(&self, read: MandatoryRead) -> bool {
        let mut values = [0u64; 5];
        let mut notes = [0u32; 64];
        let number = mandated_said(read, &mut notes, &mut values);
        self.said_at.answer_is(number, &values)
    }

    fn read_is(&self, read: MandatoryRead, rows: &[u32]) -> bool {
        self.said_is(read) && self.rows_at.numbers_are(rows) && notes_are(self.notes_at, read.notes)
    }

    fn is_same_by(&self, table: &[u32], octets: &[u8]) -> bool {
        let n = self.room_at.two();
        if n > 256 {
            return false;
        }
        let mut rows = lent_numbers();
        let read = self.read(table, octets, &mut rows[..n]);
        self.read_is(read, front(&rows, n))
    }

    // A case in what there is room for; one that asks for more is not the recorded one.
    fn is_same(&self) -> bool {
        if !self.table_at.numbers_fit() || !self.part_at.string_fits() {
            return false;
        }
        let table = self.table_at.numbers();
        let octets = self.part_at.string();
        self.is_same_by(
            front(&table, self.table_at.two()),
            front(&octets, self.part_at.string_len()),
        )
    }
}

struct Cases;

impl RunCase for Cases {
    ghost gives = { λ _ _. Unit };

    fn run_case<'a>(at: Position<'a>) -> Ran<'a> {
        let case = case_at(at);
        Ran {
            number: case.said_at.octet(),
            is_same: case.is_same(),
            end: case.end,
        }
    }
}

fn main(rt: HostRuntime) -> Result<()> {
    run_input::<_, _, Cases>(&rt, &mut rt.stdin())
}
