// Why an element of an optional part was set aside: the part on standard input, one line on standard output. The arguments, as
// bin/launch hands them over: 1 the table number, 2 whether the option is on, 3 the element's number, 4 whether the part is text in hex.
#![tactic(auto)]

use arguments::argument_or;
use grounds::why_text;
use std::process::ExitCode;
use streams::{MOST_READ, Status, read_part, write_text};

fn say(rt: &HostRuntime, part: &[u8]) -> Status {
    let mut text = [0u8; 64];
    let number = argument_or(rt, 1, 0);
    let option = argument_or(rt, 2, 0) == 1;
    let element = argument_or(rt, 3, 0) as usize;
    let told = why_text(number, part, option, element, &mut text);
    let len = told.len;
    write_text(rt, &text[..len], told.refused, b"nas-why: standard output")
}

fn say_input(rt: &HostRuntime) -> Status {
    let mut part = [0u8; MOST_READ];
    let Ok(len) = read_part(rt, &mut part, b"nas-why: standard input") else {
        return Status::Failed;
    };
    say(rt, &part[..len])
}

fn main(rt: HostRuntime) -> ExitCode {
    ExitCode::from(say_input(&rt))
}
