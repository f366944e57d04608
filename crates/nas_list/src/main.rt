// Lists the elements of an optional part: the part on standard input, the listing on standard output. The arguments, as bin/launch
// hands them over: 1 the table number; 2 whether the option is on and 4 whether the part is text in hex, 0 or 1 each.
#![tactic(auto)]

use arguments::argument_or;
use listing::{MOST_TEXT, is_refused, list_part};
use std::process::ExitCode;
use streams::{MOST_READ, Status, read_part, write_text};

// The listing of a part, by way of a lent buffer. There is room for every listing in MOST_TEXT octets.
fn write_listing(
    rt: &HostRuntime,
    number: u32,
    part: &[u8],
    option: bool,
    text: &mut [u8],
) -> Status {
    match list_part(number, part, option, text) {
        Ok(len) => write_text(
            rt,
            &text[..len],
            is_refused(number, part, option),
            b"nas-list: standard output",
        ),
        Err(_) => Status::Failed,
    }
}

fn list(rt: &HostRuntime, part: &[u8]) -> Status {
    let mut text = [0u8; MOST_TEXT];
    let number = argument_or(rt, 1, 0);
    let option = argument_or(rt, 2, 0) == 1;
    write_listing(rt, number, part, option, &mut text)
}

fn list_input(rt: &HostRuntime) -> Status {
    let mut part = [0u8; MOST_READ];
    let Ok(len) = read_part(rt, &mut part, b"nas-list: standard input") else {
        return Status::Failed;
    };
    list(rt, &part[..len])
}

fn main(rt: HostRuntime) -> ExitCode {
    ExitCode::from(list_input(&rt))
}
