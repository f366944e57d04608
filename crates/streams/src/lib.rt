// Standard input into a lent buffer, a text onto standard output, and the status that a program ends with.
#![tactic(auto)]

ghost use Rattle.std.specs.Prelude.{◌≡◌, ◌≢◌, ◌≤◌, ◌↔◌, IfOk, IsTrue, length};
ghost use Rattle.std.specs.Process.{exit_status};
ghost use Rattle.streams.specs.Counts.{IsPrefixLen, count_of};
ghost use Rattle.streams.specs.Statuses.{status_number};

use arguments::argument_or;
use hex_text::{Decoded, HexError, decode};
use std::error::Error;
use std::io::{Cursor, Read, Write};
use std::process::ExitCode;
use std::{fmt, io};

// How a program ends: it is done; the part is refused; it could not be read, or the text not be written.
#[derive(Clone, Copy, Debug, PartialEq, Eq)]
pub enum Status {
    Done = 0,
    Refused = 1,
    Failed = 2,
}

impl From<Status> for ExitCode {
    ghost from_gives = { λ status code. exit_status code ≡ status_number status };

    fn from(status: Status) -> ExitCode {
        ExitCode::from(status as u8)
    }
}

// Why a part was not read: a read failed, a text of hex digits is wrong, or it is too long.
#[derive(Clone, Copy, Debug)]
pub enum InputError {
    Read(io::Error),
    Hex(HexError),
    LongHex,
}

impl fmt::Display for InputError {
    fn fmt<W: fmt::Write>(&self, f: &mut fmt::Formatter<W>) -> fmt::Result {
        match self {
            InputError::Read(error) => write!(f, "{error}"),
            InputError::Hex(error) => write!(f, "{error}"),
            InputError::LongHex => write!(f, "octets of hex text over {MOST_HEX}"),
        }
    }
}

impl Error for InputError {}

impl From<HexError> for InputError {
    ghost use Rattle.streams.specs.declared.InputError.TheVariants.{Hex};

    ghost from_gives = { λ error why. why ≡ Hex error };

    fn from(error: HexError) -> InputError {
        Self::Hex(error)
    }
}

// A part that was not read, and how many octets of it stand in the buffer.
#[derive(Clone, Copy, Debug)]
pub struct Unread {
    pub len: usize,
    pub error: InputError,
}

// None stands there.
impl From<InputError> for Unread {
    ghost from_gives = { λ error unread. unread ≡ record { len = 0; error = error } };

    fn from(error: InputError) -> Unread {
        Unread { len: 0, error }
    }
}

// The words of an error's text, which may end in its number: " (os error 21)".
fn words_len(text: &[u8]) -> usize
    ensures { result ≤ length text.now }
{
    text.iter()
        .position(|x| *x == b'(')
        .map_or(text.len(), |i| i.saturating_sub(1))
}

// A line that tells what failed, and why.
fn fail<E: fmt::Display>(rt: &HostRuntime, what: &[u8], error: &E) {
    let mut writer = Cursor::new([0u8; 256]);
    let _ = write!(writer, "{error}");
    let len = writer.position().min(256) as usize;
    let text = writer.into_inner();
    let words = words_len(&text[..len]);
    let _ = rt.stderr().write_all(what);
    let _ = rt.stderr().write_all(b": ");
    let _ = rt.stderr().write_all(&text[..words]);
    let _ = rt.stderr().write_all(b"\n");
}

// Reads until the buffer is full, the input ends or a read fails.
pub fn read_input(rt: &HostRuntime, part: &mut [u8]) -> Result<usize, Unread>
    ensures { IsPrefixLen (count_of result) part.new }
{
    let mut len = 0;
    while len < part.len() {
        let more = rt.stdin().read(&mut part[len..]).map_err(|error| Unread {
            len,
            error: InputError::Read(error),
        })?;
        if more == 0 {
            break;
        }
        len += more;
    }
    Ok(len)
}

// The octets of a text of hex digits that are looked at.
const MOST_HEX: usize = 16_384;

// One octet more, so that a longer text is seen.
const HEX_READ: usize = 16_385;

// The octets of a text, or what is wrong with it; of a long text not all was looked at.
fn judged(decoded: Decoded, long: bool) -> Result<usize, InputError>
    ensures { IfOk result (λ len. len ≡ decoded.len) }
{
    if long && !matches!(decoded.ends, Err(HexError::NoDigit(_))) {
        return Err(InputError::LongHex);
    }
    decoded.ends?;
    Ok(decoded.len)
}

// A text of hex digits, decoded into the buffer.
fn read_hex(rt: &HostRuntime, part: &mut [u8]) -> Result<usize, Unread>
    ensures { IsPrefixLen (count_of result) part.new }
{
    let mut text = [0u8; HEX_READ];
    let len = read_input(rt, &mut text).map_err(|unread| unread.error)?;
    let room = part.len();
    let decoded = decode(&text[..len], part);
    Ok(judged(decoded, len > MOST_HEX && decoded.len < room)?)
}

// One octet more than a part of a program may have, so that a longer part is seen.
pub const MOST_READ: usize = 4097;

// A part from standard input: raw octets, or hex digits where argument 4 is 1. What fails is told with the given words.
// Each program goes on from here by itself: a closure for that would want a `requires`, and no public function has one.
pub fn read_part(rt: &HostRuntime, part: &mut [u8], what: &[u8]) -> Result<usize, Unread>
    ensures { IsPrefixLen (count_of result) part.new }
{
    let read = if argument_or(rt, 4, 0) == 1 {
        read_hex(rt, part)
    } else {
        read_input(rt, part)
    };
    if let Err(unread) = &read {
        fail(rt, what, &unread.error);
    }
    read
}

// A text onto standard output; where that fails, a line with the given words, and `Failed`.
pub fn write_text(rt: &HostRuntime, text: &[u8], refused: bool, what: &[u8]) -> Status
    ensures told { result ≢ Status.Failed → (IsTrue refused ↔ (result ≡ Status.Refused)) }
{
    if let Err(error) = rt.stdout().write_all(text) {
        fail(rt, what, &error);
        return Status::Failed;
    }
    if refused {
        Status::Refused
    } else {
        Status::Done
    }
}
