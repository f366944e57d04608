// The pieces of a text, each at a position from which no sum wraps.
ghost use Rattle.std.specs.Prelude.{◌≡◌, [], ◌∷◌, ◌++◌, ◌+◌, ◌<◌, ◌^◌, length};
ghost use Rattle.definitions.specs.Elements.{elements, cut_short};
ghost use Rattle.definitions.specs.Listing.{ascii, decimal_f, decimal, hex_digit, hex, newline, listed};
ghost use Rattle.wording.specs.Puts.{Put};
ghost use Rattle.wording.specs.Lines.{word_of, reason_word, line_of};

use copying::put_slice;
use elements::element::{Cut, Element, iei_of};
use order::{IgnoredIeReason, Placed};

pub(crate) fn put(out: &mut [u8], used: usize, text: &[u8]) -> usize
    requires { used + length text.now < 2 ^ 32 }
    ensures { Put out.old used text.now out.new result }
{
    if used >= out.len() {
        return used + text.len();
    }
    put_slice(&mut out[used..], text);
    used + text.len()
}

pub(crate) fn put_octet(out: &mut [u8], used: usize, x: u8) -> usize
    requires { used < 2 ^ 31 }
    ensures { Put out.old used (x ∷ []) out.new result }
{
    let text = [x];
    put(out, used, &text)
}

// The last digits of a number in decimal, at most so many.
fn put_digits(out: &mut [u8], used: usize, n: usize, most: usize) -> usize
    requires { used + most < 2 ^ 31 }
    ensures { Put out.old used (decimal_f most n) out.new result }
{
    if most == 0 {
        return used;
    }
    if n < 10 {
        return put_octet(out, used, 48 + (n as u8));
    }
    let next = put_digits(out, used, n / 10, most - 1);
    put_octet(out, next, 48 + ((n % 10) as u8))
}

pub(crate) fn put_decimal(out: &mut [u8], used: usize, n: usize) -> usize
    requires { used + 5 < 2 ^ 31 }
    ensures { Put out.old used (decimal n) out.new result }
{
    put_digits(out, used, n, 5)
}

fn hex_digit(n: u8) -> u8
    requires { n < 16 }
    ensures { result ≡ hex_digit n }
{
    if n < 10 {
        return 48 + n;
    }
    87 + n
}

// An octet as two digits.
fn put_hex(out: &mut [u8], used: usize, x: u8) -> usize
    requires { used < 2 ^ 31 }
    ensures { Put out.old used (hex x) out.new result }
{
    let text = [hex_digit(x / 16), hex_digit(x % 16)];
    put(out, used, &text)
}

// The word of a verdict.
fn put_reason(out: &mut [u8], used: usize, reason: IgnoredIeReason) -> usize
    requires { used < 2 ^ 31 }
    ensures { Put out.old used (reason_word reason) out.new result }
{
    match reason {
        IgnoredIeReason::Malformed => put(out, used, b"malformed"),
        IgnoredIeReason::Repeated => put(out, used, b"repeated"),
        IgnoredIeReason::OutOfSequence => put(out, used, b"sequence"),
    }
}

fn put_word(out: &mut [u8], used: usize, placed: Placed) -> usize
    requires { used < 2 ^ 31 }
    ensures { Put out.old used (word_of placed) out.new result }
{
    match placed {
        Placed::Known(_) => put(out, used, b"accepted"),
        Placed::Unknown => put(out, used, b"unknown"),
        Placed::Ignored(reason) => put_reason(out, used, reason),
    }
}

// The line of an element.
pub(crate) fn put_line(out: &mut [u8], used: usize, e: Element) -> usize
    requires { used < 2 ^ 30 }
    ensures { Put out.old used (line_of e) out.new result }
{
    let placed = e.placed;
    let a = put_decimal(out, used, e.start);
    let b = put_octet(out, a, b' ');
    let c = put_decimal(out, b, e.len);
    let d = put_octet(out, c, b' ');
    let f = put_hex(out, d, e.iei);
    let g = put_octet(out, f, b' ');
    let h = put_word(out, g, placed);
    put_octet(out, h, b'\n')
}

// The line of a part that is cut short at an element.
pub(crate) fn put_cut(out: &mut [u8], used: usize, cut: Cut) -> usize
    requires { used < 2 ^ 30 }
    ensures { Put out.old used (listed 0 (cut_short cut.start cut.first cut.left cut.missing)) out.new result }
{
    let a = put(out, used, b"cut at ");
    let b = put_decimal(out, a, cut.start);
    let c = put(out, b, b" iei ");
    let d = put_hex(out, c, iei_of(cut.first));
    let f = put(out, d, b" octets ");
    let g = put_decimal(out, f, cut.left);
    put_missing(out, g, cut.missing)
}

// The end of that line: the octets missing.
fn put_missing(out: &mut [u8], used: usize, n: usize) -> usize
    requires { used + 14 < 2 ^ 31 }
    ensures { Put out.old used (ascii " missing " ++ (decimal n ++ newline)) out.new result }
{
    let a = put(out, used, b" missing ");
    let b = put_decimal(out, a, n);
    put_octet(out, b, b'\n')
}

// The line behind the last element of n octets.
pub(crate) fn put_end(out: &mut [u8], used: usize, n: usize) -> usize
    requires { used < 2 ^ 30 }
    ensures { Put out.old used (listed n (elements [])) out.new result }
{
    let a = put(out, used, b"end ");
    let b = put_decimal(out, a, n);
    put_octet(out, b, b'\n')
}
