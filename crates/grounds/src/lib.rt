// What nas-why prints of an element, into a lent buffer: one line.
#![tactic(auto)]

ghost use Rattle.std.specs.Prelude.{◌≡◌, ◌++◌, ◌≤◌, length};
ghost use Rattle.definitions.specs.Basic.{over};
ghost use Rattle.definitions.specs.Elements.{malformed};
ghost use Rattle.definitions.specs.Listing.{decimal, word, space, newline};
ghost use Rattle.why.specs.Whys.{why_as};
ghost use Rattle.wording.specs.Puts.{Put};
ghost use Rattle.wording.specs.Told.{refuses};
ghost use Rattle.grounds.specs.Grounds.{why_text_of, why_refused, fault_said, said_of};

use why::{Fault, Why, WhyError, why_set_aside_by};
use wording::{MOST_LISTED, Told, say, say_cut, say_number};

fn put_fault(out: &mut [u8], fault: Fault) -> usize
    ensures { Put out.old 0 ((word malformed ++ (space ++ fault_said fault)) ++ newline) out.new result }
{
    match fault {
        Fault::CutShort => say(out, 0, b"malformed cut short\n"),
        Fault::UnderLeast => say(out, 0, b"malformed under the least length\n"),
        Fault::KindBarred => say(out, 0, b"malformed kind not allowed\n"),
    }
}

// A word with a space behind it, and the start of the ground.
fn put_start(out: &mut [u8], text: &[u8], start: usize) -> usize
    requires { length text.now ≤ 20 }
    ensures { Put out.old 0 (text.now ++ (decimal start ++ newline)) out.new result }
{
    let next = say(out, 0, text);
    say_number(out, next, start)
}

fn put_why(out: &mut [u8], why: Result<Why, WhyError>) -> usize
    ensures { Put out.old 0 (said_of why) out.new result }
{
    match why {
        Ok(Why::Accepted) => say(out, 0, b"accepted\n"),
        Ok(Why::Unknown) => say(out, 0, b"unknown\n"),
        Ok(Why::Malformed(fault)) => put_fault(out, fault),
        Ok(Why::Repeated(start)) => put_start(out, b"repeated ", start),
        Ok(Why::OutOfSequence(start)) => put_start(out, b"sequence ", start),
        Err(WhyError::NoElement) => say(out, 0, b"no such element\n"),
        Err(WhyError::CutShort(cut)) => say_cut(out, 0, cut),
        Err(WhyError::TooLong) => say(out, 0, b"too long\n"),
        Err(WhyError::BadTable(_)) => 0,
        Err(WhyError::NoTable) => 0,
    }
}

// The answer that is told.
fn why_told(number: u32, octets: &[u8], option: bool, element: usize) -> Result<Why, WhyError>
    ensures { (said_of result ≡ why_text_of number option octets.now element) × (refuses (why_as result) ≡ why_refused number option octets.now element) }
{
    if octets.len() > MOST_LISTED {
        return Err(WhyError::TooLong);
    }
    why_set_aside_by(number, octets, option, element)
}

// Why the element of a number came as it did, by table number, in the front of a lent buffer.
pub fn why_text(
    number: u32,
    octets: &[u8],
    out_of_sequence: bool,
    element: usize,
    out: &mut [u8; 64],
) -> Told
    ensures len_value { result.len ≡ length (why_text_of number out_of_sequence octets.now element) }
    ensures len_bound { result.len ≤ 64 }
    ensures refused_value { result.refused ≡ why_refused number out_of_sequence octets.now element }
    ensures out_after { out.new ≡ over (why_text_of number out_of_sequence octets.now element) out.old }
{
    let why = why_told(number, octets, out_of_sequence, element);
    Told {
        refused: why.is_err(),
        len: put_why(out, why),
    }
}
