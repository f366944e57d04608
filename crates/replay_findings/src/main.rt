// Runs the recorded list on standard input through our findings, and prints how many cases there are of each number, how many answers are the
// recorded ones in number, value and all lent output, and each case that is not. README.md has the format.
#![tactic(auto)]

use findings::{FindError, optional_ie_order_findings};
use part_answers::found_said;
use recorded::lent::lent_numbers;
use recorded::runs::{Ran, RunCase, run_input};
use recorded::{Position, front};
use std::io::Result;

// A case of the list: where its parts stand.
#[derive(Clone, Copy)]
struct Case<'a> {
    table_at: Position<'a>,
    kept_at: Position<'a>,
    order_at: Position<'a>,
    room_at: Position<'a>,
    said_at: Position<'a>,
    found_at: Position<'a>,
    end: Position<'a>,
}

fn case_at(at: Position) -> Case {
    let table_at = at.after(2);
    let kept_at = table_at.numbers_end();
    let order_at = kept_at.used_end();
    let room_at = order_at.used_end();
    let said_at = room_at.after(2);
    let found_at = said_at.answer_end();
    Case {
        table_at,
        kept_at,
        order_at,
        room_at,
        said_at,
        found_at,
        end: found_at.numbers_end(),
    }
}

impl Case<'_> {
    fn fits(&self) -> bool {
        self.table_at.numbers_fit() && self.kept_at.string_fits() && self.order_at.string_fits()
    }

    // Whether the number, its value and the findings are the recorded ones.
    fn found_is(&self, found: std::result::Result<usize, FindError>, findings: &[u32]) -> bool {
        let mut values = [0u64; 5];
        let number = found_said(found, &mut values);
        self.said_at.answer_is(number, &values) && self.found_at.numbers_are(findings)
    }

    fn is_same_by(&self, table: &[u32], kept: &[u8], order: &[u8]) -> bool {
        let n = self.room_at.two();
        if n > 256 {
            return false;
        }
        let mut findings = lent_numbers();
        let found = optional_ie_order_findings(
            table,
            kept,
            self.kept_at.used(),
            order,
            self.order_at.used(),
            &mut findings[..n],
        );
        self.found_is(found, front(&findings, n))
    }

    // A case in what there is room for; one that asks for more is not the recorded one.
    fn is_same(&self) -> bool {
        if !self.fits() {
            return false;
        }
        let table = self.table_at.numbers();
        let kept = self.kept_at.string();
        let order = self.order_at.string();
        self.is_same_by(
            front(&table, self.table_at.two()),
            front(&kept, self.kept_at.string_len()),
            front(&order, self.order_at.string_len()),
        )
    }
}

struct Cases;

impl RunCase for Cases {
    ghost gives = { λ _ _. Unit };

    fn run_case<'a>(at: Position<'a>) -> Ran<'a> {
        let case = case_at(at);
        Ran {
            number: case.said_at.octet(),
            is_same: case.is_same(),
            end: case.end,
        }
    }
}

fn main(rt: HostRuntime) -> Result<()> {
    run_input::<_, _, Cases>(&rt, &mut rt.stdin())
}
