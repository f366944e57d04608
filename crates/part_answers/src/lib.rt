// The answers of the calls on a whole part: reading, checking, writing, findings and why. Each is a number and its values in five lent
// places, as crates/answers puts them.
#![tactic(auto)]

ghost use Rattle.std.specs.Prelude.{◌≡◌, [], ◌∷◌};
ghost use Rattle.checking.specs.Checks.{part_check_as};
ghost use Rattle.findings.specs.Findings.{log_as, found_as};
ghost use Rattle.definitions.specs.Basic.{answer};
ghost use Rattle.mandatory_writing.specs.Writes.{wrote_as};
ghost use Rattle.filling.specs.Decodes.{room_as, decoded_as};
ghost use Rattle.why.specs.Whys.{fault_as, why_as};
ghost use Rattle.measured_writing.specs.Encodes.{which_as, encoded_as};
ghost use Rattle.part_answers.specs.Mandated.{used_notes, notes_put, brief_as, MandatedSays};
ghost use Rattle.answers.specs.Says.{put, Says};

use answers::{cut_said, none, one, two};
use checking::PartError;
use filling::{DecodeError, Decoded, Room};
use findings::FindError;
use logs::MalformedLog;
use mandatory::decode::{MandatoryError, MandatoryRead};
use mandatory::notes::Notes;
use mandatory_writing::encode::MandatoryWriteError;
use measured_writing::encode::{EncodeError, Encoded, Which};
use why::{Fault, Why, WhyError};

fn room_said(room: Room, values: &mut [u64; 5]) -> u32
    ensures { Says (answer 2 (room_as room ∷ [])) result values.old values.new }
{
    match room {
        Room::Rows => one(2, 1, values),
        Room::Kept => one(2, 2, values),
        Room::Order => one(2, 3, values),
    }
}

pub fn decoded_said(decoded: Decoded, values: &mut [u64; 5]) -> u32
    ensures { Says (decoded_as decoded) result values.old values.new }
{
    match decoded {
        Ok(used) => two(0, used.kept as u64, used.order as u64, values),
        Err(DecodeError::CutShort(cut)) => cut_said(cut, values),
        Err(DecodeError::NoRoom(room)) => room_said(room, values),
        Err(DecodeError::TooLong) => none(3, values),
        Err(DecodeError::BadTable(row)) => one(4, row as u64, values),
        Err(DecodeError::NoTable) => none(5, values),
    }
}

pub fn part_checked_said(checked: Result<(), PartError>, values: &mut [u64; 5]) -> u32
    ensures { Says (part_check_as checked) result values.old values.new }
{
    match checked {
        Ok(()) => none(0, values),
        Err(PartError::Offends(at)) => one(29, at as u64, values),
        Err(PartError::CutShort(cut)) => cut_said(cut, values),
        Err(PartError::TooLong) => none(3, values),
        Err(PartError::BadTable(row)) => one(4, row as u64, values),
        Err(PartError::NoTable) => none(5, values),
    }
}

// A malformed log, or malformed rows.
fn which_said(which: Which, values: &mut [u64; 5]) -> u32
    ensures { Says (answer 11 (which_as which ∷ [])) result values.old values.new }
{
    match which {
        Which::Order => one(11, 1, values),
        Which::Kept => one(11, 2, values),
        Which::Rows => one(11, 3, values),
    }
}

pub fn encoded_said(encoded: Encoded, values: &mut [u64; 5]) -> u32
    ensures { Says (encoded_as encoded) result values.old values.new }
{
    match encoded {
        Ok(n) => one(0, n as u64, values),
        Err(EncodeError::NoRows) => one(2, 1, values),
        Err(EncodeError::TooLong) => none(3, values),
        Err(EncodeError::BadTable(row)) => one(4, row as u64, values),
        Err(EncodeError::NoTable) => none(5, values),
        Err(EncodeError::Unfit(place)) => one(10, place as u64, values),
        Err(EncodeError::Malformed(which)) => which_said(which, values),
        Err(EncodeError::NoOutput(need)) => one(12, need, values),
    }
}

// How many notes are used, of a count.
fn used_notes(count: usize) -> usize
    ensures { result ≡ used_notes count }
{
    count.min(32)
}

// Row and number of each note that is used, two numbers each; the others stay as they were. Returns how many are used.
fn put_notes(from: Notes, notes: &mut [u32; 64]) -> u64
    ensures { (result ≡ used_notes from.count) × (notes.new ≡ put (notes_put from) notes.old) }
{
    let used = used_notes(from.count);
    for i in 0..used {
        let note = from.notes[i];
        notes[2 * i] = note.row;
        notes[2 * i + 1] = note.number;
    }
    used as u64
}

// What reading mandatory rows answers, with how many notes there are.
fn brief_said(mandated: Result<usize, MandatoryError>, count: u64, values: &mut [u64; 5]) -> u32
    ensures { Says (brief_as mandated count) result values.old values.new }
{
    match mandated {
        Ok(n) => two(0, n as u64, count, values),
        Err(MandatoryError::NoRoom) => one(2, 1, values),
        Err(MandatoryError::TooLong) => none(3, values),
        Err(MandatoryError::BadTable(row)) => one(4, row as u64, values),
        Err(MandatoryError::NoTable) => none(5, values),
        Err(MandatoryError::Missing(row)) => two(6, row as u64, count, values),
        Err(MandatoryError::Truncated(row)) => two(7, row as u64, count, values),
        Err(MandatoryError::TooShort(row)) => two(8, row as u64, count, values),
        Err(MandatoryError::Syntax(row)) => two(9, row as u64, count, values),
    }
}

pub fn mandated_said(read: MandatoryRead, notes: &mut [u32; 64], values: &mut [u64; 5]) -> u32
    ensures { MandatedSays read result values.old values.new notes.old notes.new }
{
    let count = put_notes(read.notes, notes);
    brief_said(read.answer, count, values)
}

pub fn wrote_said(wrote: Result<usize, MandatoryWriteError>, values: &mut [u64; 5]) -> u32
    ensures { Says (wrote_as wrote) result values.old values.new }
{
    match wrote {
        Ok(n) => one(0, n as u64, values),
        Err(MandatoryWriteError::NoRoom) => one(2, 1, values),
        Err(MandatoryWriteError::TooLong) => none(3, values),
        Err(MandatoryWriteError::BadTable(row)) => one(4, row as u64, values),
        Err(MandatoryWriteError::NoTable) => none(5, values),
        Err(MandatoryWriteError::Unfit(row)) => one(10, row as u64, values),
        Err(MandatoryWriteError::Malformed) => one(11, 3, values),
        Err(MandatoryWriteError::OutputShort(need)) => one(12, need as u64, values),
    }
}

fn log_said(log: MalformedLog, values: &mut [u64; 5]) -> u32
    ensures { Says (answer 11 (log_as log ∷ [])) result values.old values.new }
{
    match log {
        MalformedLog::Order => one(11, 1, values),
        MalformedLog::Kept => one(11, 2, values),
    }
}

pub fn found_said(found: Result<usize, FindError>, values: &mut [u64; 5]) -> u32
    ensures { Says (found_as found) result values.old values.new }
{
    match found {
        Ok(n) => one(0, n as u64, values),
        Err(FindError::BadTable(row)) => one(4, row as u64, values),
        Err(FindError::TooLong) => none(3, values),
        Err(FindError::Malformed(log)) => log_said(log, values),
        Err(FindError::NoRoom) => one(2, 4, values),
    }
}

// The number of a fault.
fn fault_number(fault: Fault) -> u64
    ensures { result ≡ fault_as fault }
{
    match fault {
        Fault::CutShort => 1,
        Fault::UnderLeast => 2,
        Fault::KindBarred => 3,
    }
}

pub fn why_said(why: Result<Why, WhyError>, values: &mut [u64; 5]) -> u32
    ensures { Says (why_as why) result values.old values.new }
{
    match why {
        Ok(Why::Accepted) => one(0, 0, values),
        Ok(Why::Unknown) => one(0, 1, values),
        Ok(Why::Malformed(fault)) => two(0, 2, fault_number(fault), values),
        Ok(Why::Repeated(at)) => two(0, 3, at as u64, values),
        Ok(Why::OutOfSequence(at)) => two(0, 4, at as u64, values),
        Err(WhyError::NoElement) => none(27, values),
        Err(WhyError::CutShort(cut)) => cut_said(cut, values),
        Err(WhyError::TooLong) => none(3, values),
        Err(WhyError::BadTable(row)) => one(4, row as u64, values),
        Err(WhyError::NoTable) => none(5, values),
    }
}
