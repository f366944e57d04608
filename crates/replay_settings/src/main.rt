// Runs the recorded list on standard input through our setting of a place, and prints how many cases there are of each number, how many answers are
// the recorded ones in number, value, rows and set octets, and each case that is not. README.md has the format.
#![tactic(auto)]

use answers::edited_said;
use edits::{Edited, set_place};
use recorded::runs::{Ran, RunCase, run_input};
use recorded::{Position, front};
use std::io::Result;

// A case of the list: where its parts stand, and the rows and set octets that it left.
#[derive(Clone, Copy)]
struct Case<'a> {
    table_at: Position<'a>,
    rows_at: Position<'a>,
    received_at: Position<'a>,
    set_at: Position<'a>,
    place_at: Position<'a>,
    value_at: Position<'a>,
    order_at: Position<'a>,
    said_at: Position<'a>,
    rows_after_at: Position<'a>,
    set_after_at: Position<'a>,
    end: Position<'a>,
}

// What a case lends to be read.
#[derive(Clone, Copy)]
struct Lent<'a> {
    table: &'a [u32],
    received: &'a [u8],
    order: &'a [u8],
    value: &'a [u8],
}

fn case_at(at: Position) -> Case {
    let table_at = at.after(2);
    let rows_at = table_at.numbers_end();
    let received_at = rows_at.numbers_end();
    let set_at = received_at.string_end();
    let place_at = set_at.used_end();
    let value_at = place_at.after(4);
    let order_at = value_at.string_end();
    let said_at = order_at.used_end();
    let rows_after_at = said_at.answer_end();
    let set_after_at = rows_after_at.numbers_end();
    Case {
        table_at,
        rows_at,
        received_at,
        set_at,
        place_at,
        value_at,
        order_at,
        said_at,
        rows_after_at,
        set_after_at,
        end: set_after_at.string_end(),
    }
}

impl Case<'_> {
    fn fits(&self) -> bool {
        self.table_at.numbers_fit()
            && self.received_at.string_fits()
            && self.order_at.string_fits()
            && self.value_at.string_fits()
    }

    // Whether the number, its value, the rows and the set octets are the recorded ones.
    fn edited_is(&self, edited: Edited, rows: &[u32], set: &[u8]) -> bool {
        let mut values = [0u64; 5];
        let number = edited_said(edited, &mut values);
        self.said_at.answer_is(number, &values)
            && self.rows_after_at.numbers_are(rows)
            && self.set_after_at.output_is(set)
    }

    fn setting_is(&self, lent: Lent, rows: &mut [u32], set: &mut [u8]) -> bool {
        let edited = set_place(
            lent.table,
            rows,
            lent.received,
            set,
            self.set_at.used(),
            lent.order,
            self.order_at.used(),
            self.place_at.number(),
            lent.value,
        );
        self.edited_is(edited, rows, set)
    }

    fn is_same_by(&self, lent: Lent) -> bool {
        let places = self.rows_at.two();
        let n = self.set_at.string_len();
        if places > 256 || n > 70000 {
            return false;
        }
        let mut rows = self.rows_at.numbers();
        let mut set = self.set_at.string();
        self.setting_is(lent, &mut rows[..places], &mut set[..n])
    }

    // A case in what there is room for; one that asks for more is not the recorded one.
    fn is_same(&self) -> bool {
        if !self.fits() {
            return false;
        }
        let table = self.table_at.numbers();
        let received = self.received_at.string();
        let order = self.order_at.string();
        let value = self.value_at.string();
        self.is_same_by(Lent {
            table: front(&table, self.table_at.two()),
            received: front(&received, self.received_at.string_len()),
            order: front(&order, self.order_at.string_len()),
            value: front(&value, self.value_at.string_len()),
        })
    }
}

struct Cases;

impl RunCase for Cases {
    ghost gives = { λ _ _. Unit };

    fn run_case<'a>(at: Position<'a>) -> Ran<'a> {
        let case = case_at(at);
        Ran {
            number: case.said_at.octet(),
            is_same: case.is_same(),
            end: case.end,
        }
    }
}

fn main(rt: HostRuntime) -> Result<()> {
    run_input::<_, _, Cases>(&rt, &mut rt.stdin())
}
