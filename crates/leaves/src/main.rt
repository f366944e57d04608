// Document 01's example lines that the length rule and the two logs decide, run and printed: for each element its whole
// length, and what the logs hold once it is entered as unknown; then the octets of the counts 127 and 128. The file stdout
// beside src/ holds document 01's numbers.
#![tactic(auto)]

use kept::{LogError, PushError, Span, kept_get, kept_push};
use length::{CutShort, generic_ie_length};
use octets::part;
use order::{Placed, order_push};
use std::io;

// The start number of table P.
const START: u8 = 0x70;

// Octets, each as a blank and two hex digits.
fn print_octets<R: Print>(rt: &R, s: &[u8]) -> io::Result<()> {
    for x in s {
        print!(rt; " {x:02x}")?;
    }
    Ok(())
}

// How many octets of a log are used after a push; as many as before where it was refused, which is said.
fn used_after<R: Print>(
    rt: &R,
    pushed: Result<usize, PushError>,
    before: usize,
) -> io::Result<usize> {
    let number = match pushed {
        Ok(used) => return Ok(used),
        Err(PushError::TooLong) => 3,
        Err(PushError::Malformed) => 11,
        Err(PushError::NoRoom) => 2,
    };
    print!(rt; " refused {number}")?;
    Ok(before)
}

// Both logs of one unknown element, each in a lent buffer.
fn show_logs<R: Print>(
    rt: &R,
    element: &[u8],
    order: &mut [u8],
    kept: &mut [u8],
) -> io::Result<()> {
    if element.len() == 0 {
        return Ok(());
    }
    let entries = used_after(rt, order_push(order, 0, Placed::Unknown), 0)?;
    rt.print(" order")?;
    print_octets(rt, part(order, 0, entries))?;
    let elements = used_after(rt, kept_push(kept, 0, element[0], &element[1..]), 0)?;
    rt.print(" kept")?;
    print_octets(rt, part(kept, 0, elements))
}

// The whole length of an unknown element, and its logs; or how many octets are missing.
fn show_unknown<R: Print>(
    rt: &R,
    element: &[u8],
    order: &mut [u8],
    kept: &mut [u8],
) -> io::Result<()> {
    rt.print("element")?;
    print_octets(rt, element)?;
    match generic_ie_length(element, START) {
        Ok(n) => {
            print!(rt; " length {n}")?;
            show_logs(rt, part(element, 0, n), order, kept)?;
            rt.println("")
        }
        Err(CutShort { missing }) => println!(rt; " cut short, missing {missing}"),
    }
}

// The length of the element at a number, and the octets of its count, which stand from a position on.
fn show_count<R: Print>(rt: &R, log: &[u8], used: usize, k: usize, from: usize) -> io::Result<()> {
    match kept_get(log, used, k) {
        Ok(Some(Span { start, len })) => {
            print!(rt; "octets {len} count")?;
            print_octets(rt, part(part(log, 0, start), from, start))?;
        }
        Ok(None) => {
            rt.print("past the last")?;
        }
        Err(LogError::TooLong) => {
            rt.print("refused 3")?;
        }
        Err(LogError::Malformed) => {
            rt.print("refused 11")?;
        }
    }
    rt.println("")
}

// Elements of 127 and 128 octets, pushed one behind the other.
fn show_counts<R: Print>(rt: &R, data: &[u8], log: &mut [u8]) -> io::Result<()> {
    let first = used_after(rt, kept_push(log, 0, 0x05, part(data, 0, 126)), 0)?;
    let second = used_after(rt, kept_push(log, first, 0x05, part(data, 0, 127)), first)?;
    show_count(rt, log, second, 0, 0)?;
    show_count(rt, log, second, 1, first)
}

fn main(rt: HostRuntime) -> io::Result<()> {
    let mut order = [0u8; 8];
    let mut kept = [0u8; 8];
    show_unknown(&rt, b"\x6f\x00", &mut order, &mut kept)?;
    show_unknown(&rt, b"\x70\x00\x00", &mut order, &mut kept)?;
    show_unknown(&rt, b"\x05\x01\xaa", &mut order, &mut kept)?;
    show_unknown(&rt, b"\x05\x02\xaa", &mut order, &mut kept)?;
    show_unknown(&rt, b"\x7e\x00", &mut order, &mut kept)?;
    let data = [0u8; 128];
    let mut log = [0u8; 512];
    show_counts(&rt, &data, &mut log)
}
