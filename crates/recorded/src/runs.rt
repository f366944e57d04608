// A recorded list is run a case after the other, and what came of it is printed.
ghost use Rattle.std.specs.Prelude.{IfOk};
ghost use Rattle.recorded.specs.declared.Position.{Position};
ghost use Rattle.recorded.specs.declared.runs.Ran.{Ran};
ghost use Rattle.recorded.specs.Runs.{RunsTo};

use crate::counts::{print_counts, report};
use crate::{Position, list_buffer, read_list};
use std::io::{Read, Result};

// What came of a case: its recorded number, whether our answer is the recorded one, and where the case ends.
#[derive(Clone, Copy)]
pub struct Ran<'a> {
    pub number: u8,
    pub is_same: bool,
    pub end: Position<'a>,
}

// What a program does with a case of its list, and what is known of what came of it.
pub trait RunCase {
    ghost gives: { Position → Ran → Type 0 };

    fn run_case<'a>(from: Position<'a>) -> Ran<'a>
        ensures { gives from.entry result };
}

// So many cases from a position on: where the last of them ends.
pub fn run_cases<'a, R: Print, C: RunCase>(
    rt: &R,
    from: Position<'a>,
    cases: u32,
    counts: &mut [u32],
) -> Result<Position<'a>>
    ensures { IfOk result (λ end. RunsTo C.gives cases from.entry counts.old end counts.new) }
{
    let mut at = from;
    for k in 0..cases {
        let ran = C::run_case(at);
        report(rt, counts, ran.number, ran.is_same, k)?;
        at = ran.end;
    }
    Ok(at)
}

// All cases of a list, and what is printed of them.
fn run_list<R: Print, C: RunCase>(rt: &R, list: &[u8]) -> Result<()> {
    let start = Position { list, at: 0 };
    let cases = start.four();
    let mut counts = [0u32; 257];
    let end = run_cases::<R, C>(rt, start.after(4), cases, &mut counts)?;
    print_counts(rt, cases, &counts, end.at == list.len())
}

// The list that is read.
pub fn run_input<R: Print, I: Read, C: RunCase>(rt: &R, input: &mut I) -> Result<()> {
    let mut buffer = list_buffer();
    let n = read_list(input, &mut buffer);
    run_list::<R, C>(rt, buffer.get(..n).unwrap_or(&buffer))
}
