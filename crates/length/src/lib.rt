// The length of an element from the octets from its first octet on (TS 24.007, 11.2.4).
#![tactic(auto)]

ghost use Rattle.std.specs.Prelude.{◌≡◌};
ghost use Rattle.std.proofs.Math.Option.{some};
ghost use Rattle.definitions.specs.Rows.{tlv, tlv-e};
ghost use Rattle.definitions.specs.Length.{whole, within, unknown_length, lacking, missing};
ghost use Rattle.length.specs.Answers.{length_of, unknown_of, kind_of, long_or_short};

use octets::Cursor;

// An unknown element that is cut short: the octets end before it does, by so many.
#[derive(Clone, Copy, PartialEq, Eq)]
pub struct CutShort {
    pub missing: usize,
}

// What its first octet says of an unknown element.
#[derive(Clone, Copy, PartialEq, Eq)]
pub enum UnknownKind {
    OneOctet,
    Required,
    Other,
}

// One octet alone from 0x80 up; comprehension required (TS 24.007, 11.2.5); any other.
pub fn unknown_kind(x: u8) -> UnknownKind
    ensures { result ≡ kind_of x }
{
    match x {
        0x80..=0xff => UnknownKind::OneOctet,
        0x00..=0x0f | 0x7e..=0x7f => UnknownKind::Required,
        _ => UnknownKind::Other,
    }
}

// A whole length, if there are so many octets.
fn within(length: usize, octets: &[u8]) -> Option<usize>
    ensures { result ≡ length_of (within octets.now (some length)) }
{
    (length <= octets.len()).then_some(length)
}

// The length of a TLV element, with one length octet; None where it is cut short.
pub fn tlv_length(octets: &[u8]) -> Option<usize>
    ensures { result ≡ length_of (whole tlv octets.now) }
{
    let (n, _) = (Cursor { at: 1 }).get_u8(octets)?;
    within(2 + usize::from(n), octets)
}

// The length of a TLV-E element, with two length octets; None where it is cut short.
pub fn tlve_length(octets: &[u8]) -> Option<usize>
    ensures { result ≡ length_of (whole tlv-e octets.now) }
{
    let (n, _) = (Cursor { at: 1 }).get_u16(octets)?;
    within(3 + usize::from(n), octets)
}

// The length of an unknown element, or the octets missing. No octet is cut short.
pub fn generic_ie_length(octets: &[u8], tlve_start: u8) -> Result<usize, CutShort>
    ensures { result ≡ unknown_of (missing tlve_start octets.now) (unknown_length tlve_start octets.now) }
{
    unknown_length(octets, tlve_start).ok_or_else(|| CutShort {
        missing: missing_octets(octets, tlve_start),
    })
}

// The length alone.
fn unknown_length(octets: &[u8], tlve_start: u8) -> Option<usize>
    ensures { result ≡ length_of (unknown_length tlve_start octets.now) }
{
    let &x = octets.first()?;
    match unknown_kind(x) {
        UnknownKind::OneOctet => Some(1),
        UnknownKind::Required | UnknownKind::Other => long_or_short(octets, x, tlve_start),
    }
}

// From the start number on two length octets, below it one.
fn long_or_short(octets: &[u8], x: u8, tlve_start: u8) -> Option<usize>
    ensures { result ≡ long_or_short x tlve_start octets.now }
{
    if x < tlve_start {
        tlv_length(octets)
    } else {
        tlve_length(octets)
    }
}

// The octets missing of an unknown element: 1 of no octet, none of one octet alone.
fn missing_octets(octets: &[u8], tlve_start: u8) -> usize
    ensures { result ≡ missing tlve_start octets.now }
{
    match octets.first() {
        None => 1,
        Some(&x) if x >= 0x80 => 0,
        Some(&x) if x >= tlve_start => tlve_missing(octets),
        Some(_) => tlv_missing(octets),
    }
}

// Up to the length that one length octet states, or up to the end of that field where it is cut.
fn tlv_missing(octets: &[u8]) -> usize
    ensures { result ≡ lacking tlv octets.now }
{
    let value = (Cursor { at: 1 })
        .get_u8(octets)
        .map_or(0, |(octet, _)| usize::from(octet));
    (2 + value).saturating_sub(octets.len())
}

// The same with two length octets.
fn tlve_missing(octets: &[u8]) -> usize
    ensures { result ≡ lacking tlv-e octets.now }
{
    let value = (Cursor { at: 1 })
        .get_u16(octets)
        .map_or(0, |(number, _)| usize::from(number));
    (3 + value).saturating_sub(octets.len())
}
