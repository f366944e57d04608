// A text of hex digits, two an octet, into a lent buffer.
#![tactic(auto)]

ghost use Rattle.std.specs.Prelude.{◌≡◌, ◌+◌, ◌*◌, ◌≤◌, ◌<◌, IfSome, length};
ghost use Rattle.definitions.specs.Basic.{over};
ghost use Rattle.hex_text.specs.Hex.{is_blank, digit_of, hex_of};
ghost use Rattle.hex_text.specs.Steps.{first_of, second_of, step_of, end_of, Waiting};

use std::error::Error;
use std::fmt;

// What is wrong with a text: an octet that is no digit and no blank; a digit that has no second one behind it.
#[derive(Clone, Copy, Debug, PartialEq, Eq)]
pub enum HexError {
    NoDigit(usize),
    Odd(usize),
}

impl fmt::Display for HexError {
    fn fmt<W: fmt::Write>(&self, f: &mut fmt::Formatter<W>) -> fmt::Result {
        match self {
            HexError::NoDigit(at) => write!(f, "no hex digit at {at}"),
            HexError::Odd(at) => write!(f, "odd hex digit at {at}"),
        }
    }
}

impl Error for HexError {}

// What an octet of text does: a digit waits then for its second, or none; an octet.
#[derive(Clone, Copy, Debug, PartialEq, Eq)]
pub enum Step {
    Waits(Option<u8>),
    Octet(u8),
}

// How many octets the text gave, also where it is wrong, and how it ended.
#[derive(Clone, Copy, Debug, PartialEq, Eq)]
pub struct Decoded {
    pub len: usize,
    pub ends: Result<(), HexError>,
}

#[tactic(auto, using(std::proofs::lemmas::Bool::Decides::nat_tests), unfolding(crate::specs::Hex::is_blank, definitions::specs::Basic::among))]
fn is_blank(x: u8) -> bool
    ensures { result ≡ is_blank x }
{
    matches!(x, b' ' | b'\t' | b'\n' | b'\r')
}

// What a digit counts.
#[tactic(auto, using(std::proofs::lemmas::Bool::Decides::nat_tests), unfolding(crate::specs::Hex::digit_of))]
fn digit(x: u8) -> Option<u8>
    ensures value { result ≡ digit_of x }
    ensures below { IfSome result (λ d. d < 16) }
{
    match x {
        b'0'..=b'9' => Some(x - b'0'),
        b'A'..=b'F' => Some(x - b'A' + 10),
        b'a'..=b'f' => Some(x - b'a' + 10),
        _ => None,
    }
}

// Where no digit waits.
#[tactic(auto, unfolding(crate::specs::Steps::first_of))]
fn first(i: usize, x: u8) -> Result<Step, HexError>
    ensures { result ≡ first_of i x }
{
    if is_blank(x) {
        return Ok(Step::Waits(None));
    }
    let Some(digit) = digit(x) else {
        return Err(HexError::NoDigit(i));
    };
    Ok(Step::Waits(Some(digit)))
}

// Behind a digit that waits.
#[tactic(auto, unfolding(crate::specs::Steps::second_of))]
fn second(i: usize, half: u8, x: u8) -> Result<Step, HexError>
    requires { (1 ≤ i) × (half < 16) }
    ensures { result ≡ second_of i half x }
{
    if is_blank(x) {
        return Err(HexError::Odd(i - 1));
    }
    let Some(digit) = digit(x) else {
        return Err(HexError::NoDigit(i));
    };
    Ok(Step::Octet(16 * half + digit))
}

fn step_at(i: usize, half: Option<u8>, x: u8) -> Result<Step, HexError>
    requires { Waiting i half }
    ensures { result ≡ step_of i half x }
{
    match half {
        Some(half) => second(i, half, x),
        None => first(i, x),
    }
}

// Behind the text.
fn end_at(i: usize, half: Option<u8>) -> Result<(), HexError>
    requires { Waiting i half }
    ensures { result ≡ end_of i half }
{
    match half {
        Some(_) => Err(HexError::Odd(i - 1)),
        None => Ok(()),
    }
}

// The octets of a text, as many as there is room for, in the front of a lent buffer.
pub fn decode(text: &[u8], part: &mut [u8]) -> Decoded
    ensures len_value { result.len ≡ length (hex_of (length part.old) text.now).octets }
    ensures ends_value { result.ends ≡ (hex_of (length part.old) text.now).ends }
    ensures part_after { part.new ≡ over (hex_of (length part.old) text.now).octets part.old }
{
    let mut len = 0;
    let mut half = None;
    for (i, &x) in text.iter().enumerate() {
        if len >= part.len() {
            return Decoded { len, ends: Ok(()) };
        }
        let step = match step_at(i, half, x) {
            Ok(step) => step,
            Err(error) => {
                return Decoded {
                    len,
                    ends: Err(error),
                };
            }
        };
        match step {
            Step::Waits(digit) => half = digit,
            Step::Octet(octet) => {
                part[len] = octet;
                len += 1;
                half = None;
            }
        }
    }
    Decoded {
        len,
        ends: end_at(text.len(), half),
    }
}
