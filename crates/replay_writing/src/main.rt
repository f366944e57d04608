// Runs the recorded list on standard input through our writing, and prints how many cases there are of each number, how many answers are the
// recorded ones in number, value and all lent output, and each case that is not. README.md has the format.
#![tactic(auto)]

use measured_writing::encode::Encoded;
use part_answers::encoded_said;
use recorded::lent::lent_octets;
use recorded::runs::{Ran, RunCase, run_input};
use recorded::{LENT_TABLE, Position, front};
use std::io::Result;
use writing::{encode_optional_ies, encode_optional_ies_by};

// A case of the list: by which table, and where its parts stand.
#[derive(Clone, Copy)]
struct Case<'a> {
    number: u8,
    table_at: Position<'a>,
    rows_at: Position<'a>,
    received_at: Position<'a>,
    set_at: Position<'a>,
    kept_at: Position<'a>,
    order_at: Position<'a>,
    output_at: Position<'a>,
    said_at: Position<'a>,
    written_at: Position<'a>,
    end: Position<'a>,
}

// What a case lends to be read.
#[derive(Clone, Copy)]
struct Lent<'a> {
    table: &'a [u32],
    rows: &'a [u32],
    received: &'a [u8],
    set: &'a [u8],
    kept: &'a [u8],
    order: &'a [u8],
}

fn case_at(at: Position) -> Case {
    let table_at = at.after(2);
    let rows_at = table_at.numbers_end();
    let received_at = rows_at.numbers_end();
    let set_at = received_at.string_end();
    let kept_at = set_at.used_end();
    let order_at = kept_at.used_end();
    let output_at = order_at.used_end();
    let said_at = output_at.after(4);
    let written_at = said_at.answer_end();
    Case {
        number: at.after(1).octet(),
        table_at,
        rows_at,
        received_at,
        set_at,
        kept_at,
        order_at,
        output_at,
        said_at,
        written_at,
        end: written_at.string_end(),
    }
}

impl Case<'_> {
    fn fits(&self) -> bool {
        self.table_at.numbers_fit()
            && self.rows_at.numbers_fit()
            && self.received_at.string_fits()
            && self.set_at.string_fits()
            && self.kept_at.string_fits()
            && self.order_at.string_fits()
    }

    // By the table of the case, of exactly what it lends.
    fn write(&self, lent: Lent, output: &mut [u8]) -> Encoded {
        let Lent {
            table,
            rows,
            received,
            set,
            kept,
            order,
        } = lent;
        let set_used = self.set_at.used();
        let kept_used = self.kept_at.used();
        let order_used = self.order_at.used();
        if self.number == LENT_TABLE {
            return encode_optional_ies(
                table, rows, received, set, set_used, kept, kept_used, order, order_used, output,
            );
        }
        encode_optional_ies_by(
            u32::from(self.number),
            rows,
            received,
            set,
            set_used,
            kept,
            kept_used,
            order,
            order_used,
            output,
        )
    }

    // Whether the number, its value and the output are the recorded ones.
    fn wrote_is(&self, said: Encoded, output: &[u8]) -> bool {
        let mut values = [0u64; 5];
        let number = encoded_said(said, &mut values);
        self.said_at.answer_is(number, &values) && self.written_at.output_is(output)
    }

    fn output_is(&self, lent: Lent) -> bool {
        let n = self.output_at.number();
        if n > 70000 {
            return false;
        }
        let mut output = lent_octets();
        let said = self.write(lent, &mut output[..n]);
        self.wrote_is(said, front(&output, n))
    }

    fn is_same_by(&self, received: &[u8], set: &[u8], kept: &[u8], order: &[u8]) -> bool {
        let table = self.table_at.numbers();
        let rows = self.rows_at.numbers();
        self.output_is(Lent {
            table: front(&table, self.table_at.two()),
            rows: front(&rows, self.rows_at.two()),
            received,
            set,
            kept,
            order,
        })
    }

    // A case in what there is room for; one that asks for more is not the recorded one.
    fn is_same(&self) -> bool {
        if !self.fits() {
            return false;
        }
        let received = self.received_at.string();
        let set = self.set_at.string();
        let kept = self.kept_at.string();
        let order = self.order_at.string();
        self.is_same_by(
            front(&received, self.received_at.string_len()),
            front(&set, self.set_at.string_len()),
            front(&kept, self.kept_at.string_len()),
            front(&order, self.order_at.string_len()),
        )
    }
}

struct Cases;

impl RunCase for Cases {
    ghost gives = { λ _ _. Unit };

    fn run_case<'a>(at: Position<'a>) -> Ran<'a> {
        let case = case_at(at);
        Ran {
            number: case.said_at.octet(),
            is_same: case.is_same(),
            end: case.end,
        }
    }
}

fn main(rt: HostRuntime) -> Result<()> {
    run_input::<_, _, Cases>(&rt, &mut rt.stdin())
}
