// Text into a lent buffer from a position on, as far as there is room. Each answer is the position behind the text. Nothing is put
// from position 2^30 on, nor of a text so long, and the position stays.
#![tactic(auto)]

mod put;

ghost use Rattle.std.specs.Prelude.{[], ◌++◌};
ghost use Rattle.definitions.specs.Elements.{elements, cut_short};
ghost use Rattle.definitions.specs.Listing.{decimal, newline, listed};
ghost use Rattle.wording.specs.Puts.{Put, said};
ghost use Rattle.wording.specs.Lines.{line_of};

use crate::put::{put, put_cut, put_decimal, put_end, put_line, put_octet};
use elements::element::{Cut, Element};

// A part over so many octets has the text `too long`.
pub const MOST_LISTED: usize = 4096;

const LIMIT: usize = 1_073_741_824;

// How many octets a text has, and whether it tells a refusal.
#[derive(Clone, Copy)]
pub struct Told {
    pub len: usize,
    pub refused: bool,
}

pub fn say(out: &mut [u8], used: usize, text: &[u8]) -> usize
    ensures { Put out.old used (said used text.now) out.new result }
{
    if used >= LIMIT {
        return used;
    }
    if text.len() >= LIMIT {
        return used;
    }
    put(out, used, text)
}

// A number in decimal, and the end of its line.
pub fn say_number(out: &mut [u8], used: usize, n: usize) -> usize
    ensures { Put out.old used (said used (decimal n ++ newline)) out.new result }
{
    if used >= LIMIT {
        return used;
    }
    let next = put_decimal(out, used, n);
    put_octet(out, next, b'\n')
}

// The line of an element.
pub fn say_line(out: &mut [u8], used: usize, e: Element) -> usize
    ensures { Put out.old used (said used (line_of e)) out.new result }
{
    if used >= LIMIT {
        return used;
    }
    put_line(out, used, e)
}

// The line of a part that is cut short at an element.
pub fn say_cut(out: &mut [u8], used: usize, cut: Cut) -> usize
    ensures { Put out.old used (said used (listed 0 (cut_short cut.start cut.first cut.left cut.missing))) out.new result }
{
    if used >= LIMIT {
        return used;
    }
    put_cut(out, used, cut)
}

// The line behind the last element of n octets.
pub fn say_end(out: &mut [u8], used: usize, n: usize) -> usize
    ensures { Put out.old used (said used (listed n (elements []))) out.new result }
{
    if used >= LIMIT {
        return used;
    }
    put_end(out, used, n)
}
