// Runs the recorded list on standard input through our reading, and prints how many cases there are of each number, how many
// answers are the recorded ones in number, values and all lent memory, and each case that is not. README.md has the format.
#![tactic(auto)]

use filling::Decoded;
use part_answers::decoded_said;
use reading::{decode_optional_ies, decode_optional_ies_by};
use recorded::lent::{lent_numbers, lent_octets};
use recorded::runs::{Ran, RunCase, run_input};
use recorded::{LENT_TABLE, Position, front};
use recorded_rows::places_are;
use std::io::Result;

// A case of the list: how it is read, how much is lent, and where its parts stand.
#[derive(Clone, Copy)]
struct Case<'a> {
    table: u8,
    start: u8,
    option: bool,
    rows: usize,
    kept: usize,
    order: usize,
    table_at: Position<'a>,
    part_at: Position<'a>,
    said_at: Position<'a>,
    places_at: Position<'a>,
    kept_at: Position<'a>,
    order_at: Position<'a>,
    end: Position<'a>,
}

fn places_end(at: Position) -> Position {
    at.after(1 + 6 * usize::from(at.octet()))
}

fn case_at(at: Position) -> Case {
    let table_at = at.after(3);
    let room_at = table_at.numbers_end();
    let part_at = room_at.after(10);
    let said_at = part_at.string_end();
    let places_at = said_at.answer_end();
    let kept_at = places_end(places_at);
    let order_at = kept_at.string_end();
    Case {
        table: at.octet(),
        start: at.after(1).octet(),
        option: at.after(2).octet() != 0,
        rows: room_at.two(),
        kept: room_at.after(2).number(),
        order: room_at.after(6).number(),
        table_at,
        part_at,
        said_at,
        places_at,
        kept_at,
        order_at,
        end: order_at.string_end(),
    }
}

// How many rows a table has.
fn table_rows(number: u8, cells: usize) -> usize {
    match number {
        0 => 5,
        1 => 32,
        2 => 39,
        3 => 6,
        4 => 4,
        5 => 13,
        6 => 16,
        _ => cells / 10,
    }
}

impl Case<'_> {
    // How many rows are written; a refusal writes none.
    fn rows_written(&self) -> usize {
        if self.said_at.octet() != 0 {
            return 0;
        }
        table_rows(self.table, self.table_at.two())
    }

    // A part by the table of the case, with all of its lent memory.
    fn read(
        &self,
        octets: &[u8],
        table: &[u32],
        rows: &mut [u32],
        kept: &mut [u8],
        order: &mut [u8],
    ) -> Decoded {
        if self.table == LENT_TABLE {
            return decode_optional_ies(octets, table, self.start, self.option, rows, kept, order);
        }
        decode_optional_ies_by(
            u32::from(self.table),
            octets,
            self.option,
            rows,
            kept,
            order,
        )
    }

    fn said_is(&self, said: Decoded) -> bool {
        let mut values = [0u64; 5];
        let number = decoded_said(said, &mut values);
        self.said_at.answer_is(number, &values)
    }

    fn rows_are(&self, rows: &[u32; 256]) -> bool {
        places_are(
            self.places_at,
            self.kept_at,
            self.rows_written(),
            front(rows, self.rows),
        )
    }

    fn logs_are(&self, kept: &[u8; 70000], order: &[u8; 70000]) -> bool {
        self.kept_at.output_is(front(kept, self.kept))
            && self.order_at.output_is(front(order, self.order))
    }

    // A case in what there is room for; one that asks for more is not the recorded one.
    fn part_is(&self, octets: &[u8], table: &[u32]) -> bool {
        let n = self.rows;
        let k = self.kept;
        let o = self.order;
        if n > 256 || k > 70000 || o > 70000 {
            return false;
        }
        let mut rows = lent_numbers();
        let mut kept = lent_octets();
        let mut order = lent_octets();
        let said = self.read(
            octets,
            table,
            &mut rows[..n],
            &mut kept[..k],
            &mut order[..o],
        );
        self.said_is(said) && self.rows_are(&rows) && self.logs_are(&kept, &order)
    }

    fn is_same(&self) -> bool {
        if !self.table_at.numbers_fit() || !self.part_at.string_fits() {
            return false;
        }
        let octets = self.part_at.string();
        let table = self.table_at.numbers();
        self.part_is(
            front(&octets, self.part_at.string_len()),
            front(&table, self.table_at.two()),
        )
    }
}

struct Cases;

impl RunCase for Cases {
    ghost gives = { λ _ _. Unit };

    fn run_case<'a>(at: Position<'a>) -> Ran<'a> {
        let case = case_at(at);
        Ran {
            number: case.said_at.octet(),
            is_same: case.is_same(),
            end: case.end,
        }
    }
}

fn main(rt: HostRuntime) -> Result<()> {
    run_input::<_, _, Cases>(&rt, &mut rt.stdin())
}
