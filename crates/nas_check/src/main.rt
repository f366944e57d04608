// Whether an optional part that another program made is accepted: the part on standard input, the verdict on standard output. The
// arguments, as bin/launch hands them over: 1 the table number, 4 whether the part is text in hex.
#![tactic(auto)]

use arguments::argument_or;
use std::process::ExitCode;
use streams::{MOST_READ, Status, read_part, write_text};
use verdicts::check_text;

fn say(rt: &HostRuntime, part: &[u8]) -> Status {
    let mut text = [0u8; 64];
    let number = argument_or(rt, 1, 0);
    let told = check_text(number, part, &mut text);
    let len = told.len;
    write_text(
        rt,
        &text[..len],
        told.refused,
        b"nas-check: standard output",
    )
}

fn say_input(rt: &HostRuntime) -> Status {
    let mut part = [0u8; MOST_READ];
    let Ok(len) = read_part(rt, &mut part, b"nas-check: standard input") else {
        return Status::Failed;
    };
    say(rt, &part[..len])
}

fn main(rt: HostRuntime) -> ExitCode {
    ExitCode::from(say_input(&rt))
}
