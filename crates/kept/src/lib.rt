// The kept log: each element that no row took as its octet count in unsigned LEB128, then its octets. A log is a lent buffer
// and how many of its octets are used.
#![tactic(auto)]

ghost use Rattle.std.specs.Prelude.{◌≡◌, ◌∷◌, true, ◌+◌, ◌*◌, ◌%◌, ◌≤◌, ◌<◌, ◌↔◌, length, get_or, take, drop, Ok, IsOk, IfOk, IfErr, IsTrue};
ghost use Rattle.definitions.specs.Basic.{over, too_long, most_log};
ghost use Rattle.definitions.specs.Logs.{leb128, kept_entry, count_at, allowed, kept_list, kept_push, kept_count, kept_get, kept_clear};
ghost use Rattle.definitions.proofs.Logs.{entry_of};
ghost use Rattle.octets.specs.Places.{StandsAt};
ghost use Rattle.kept.specs.Kept.{count_of, count_from, step_of, told_by, tell, start_walk, push_error, pushed_as, counted_as, got_as, used_of, part_of, PlacedBy, kept_into, kept_takes};

use copying::put_slice;
use octets::{MOST_OCTETS, part};

// The most octets of a log that are used.
pub const MOST_LOG: usize = 131_070;

// Why a log is refused that is only asked.
#[derive(Clone, Copy, PartialEq, Eq)]
pub enum LogError {
    TooLong,
    Malformed,
}

// Why an entry is not pushed.
#[derive(Clone, Copy, PartialEq, Eq)]
pub enum PushError {
    TooLong,
    Malformed,
    NoRoom,
}

impl From<LogError> for PushError {
    ghost from_gives = { λ e p. p ≡ push_error e };

    fn from(error: LogError) -> PushError {
        match error {
            LogError::TooLong => PushError::TooLong,
            LogError::Malformed => PushError::Malformed,
        }
    }
}

// Where an element stands in a log, IEI first.
#[derive(Clone, Copy, PartialEq, Eq)]
pub struct Span {
    pub start: usize,
    pub len: usize,
}

// A count at the front: its value, and how many octets it takes.
#[derive(Clone, Copy, PartialEq, Eq)]
pub struct Count {
    pub value: usize,
    pub took: usize,
}

// Where a walk over a log is: its position, the elements passed, and the wanted one, once it is met.
#[derive(Clone, Copy, PartialEq, Eq)]
pub struct Walk {
    pub at: usize,
    pub count: usize,
    pub wanted: Option<Span>,
}

// A count that is not malformed: from 1 to 65,535.
fn allowed_count(value: usize, took: usize) -> Option<Count>
    ensures { result ≡ count_of (allowed (count_from value took)) }
{
    match value {
        1..=MOST_OCTETS => Some(Count { value, took }),
        _ => None,
    }
}

// Seven bits of an octet in front of more.
fn bits(octet: u8, more: usize) -> usize
    requires { more < 65536 }
    ensures { result ≡ octet % 128 + 128 * more }
{
    usize::from(octet % 128) + 128 * more
}

// The count at the front of a log.
fn count_at(s: &[u8]) -> Option<Count>
    ensures { result ≡ count_of (count_at s.now) }
{
    match *s {
        [a, ..] if a < 128 => allowed_count(usize::from(a), 1),
        [a, b, ..] if 0 < b && b < 128 => allowed_count(bits(a, usize::from(b)), 2),
        [a, b, c, ..] if 128 <= b && 0 < c && c < 128 => {
            allowed_count(bits(a, bits(b, usize::from(c))), 3)
        }
        _ => None,
    }
}

// The count at the front, where the log has the element behind it.
pub fn entry_at(s: &[u8]) -> Option<Count>
    ensures { result ≡ count_of (entry_of s.now (count_at s.now)) }
{
    let count = count_at(s)?;
    let left = s.len().checked_sub(count.took)?;
    (count.value <= left).then_some(count)
}

// Whether the entry at the front has n octets, behind a count of one octet. Compared as octets, so that the compiled code goes on with n
// and not with the count that it would wait for.
pub fn is_like(s: &[u8], n: usize) -> bool
    ensures told { IsTrue result ↔ ((1 ≤ n) × (n ≤ 127) × (n < length s.now) × (get_or s.now 0 0 ≡ n)) }
    ensures like { result ≡ true → entry_of s.now (count_at s.now) ≡ count_from n 1 }
{
    if n < 1 || n > 127 || n >= s.len() {
        return false;
    }
    s[0] == n as u8
}

// As `entry_at`, for a caller who expects n octets, as the entry before had: a count that is only compared with n need not be waited
// for to know where the next entry begins.
pub fn entry_like(s: &[u8], n: usize) -> Option<Count>
    ensures { result ≡ count_of (entry_of s.now (count_at s.now)) }
{
    if is_like(s, n) {
        return Some(Count { value: n, took: 1 });
    }
    entry_at(s)
}

// Past the entry at a position; the one wanted is remembered.
fn kept_step(content: &[u8], w: Walk, want: usize) -> Option<Walk>
    requires { (w.at < length content.now) × (w.count ≤ w.at) }
    ensures { result ≡ step_of w want (entry_of (drop w.at content.now) (count_at (drop w.at content.now))) }
{
    let Count { value, took } = entry_at(&content[w.at..])?;
    let start = w.at + took;
    let wanted = if w.count == want {
        Some(Span { start, len: value })
    } else {
        w.wanted
    };
    Some(Walk {
        at: start + value,
        count: w.count + 1,
        wanted,
    })
}

// The whole log once: how many elements it holds, and where the wanted one stands; None where it is malformed.
fn walk_kept(content: &[u8], want: usize) -> Option<Walk>
    ensures { told_by result ≡ tell start_walk want (kept_list content.now) }
{
    let mut w = Walk {
        at: 0,
        count: 0,
        wanted: None,
    };
    while w.at < content.len() {
        w = kept_step(content, w, want)?;
    }
    Some(w)
}

// Whether a used count is above its buffer, or over a limit.
pub fn too_long(buffer: &[u8], used: usize, most: usize) -> bool
    ensures { result ≡ too_long most (used_of buffer.now used) }
{
    used > buffer.len() || used > most
}

// The octets of a log that are used.
pub fn content_of(log: &[u8], used: usize) -> Result<&[u8], LogError>
    ensures content { IfOk result (λ s. s.now ≡ take used log.now) }
    ensures stands_at { IfOk result (λ s. StandsAt 0 log.entry s) }
    ensures short { IsOk result ↔ ((used ≤ length log.now) × (used ≤ most_log)) }
    ensures long { IfErr result (λ e. e ≡ LogError.TooLong) }
{
    if too_long(log, used, MOST_LOG) {
        return Err(LogError::TooLong);
    }
    Ok(&log[..used])
}

// `UnknownIes::len`: how many elements there are.
pub fn kept_count(log: &[u8], used: usize) -> Result<usize, LogError>
    ensures { counted_as result ≡ kept_count (used_of log.now used) }
{
    let walk = walk_kept(content_of(log, used)?, 0).ok_or(LogError::Malformed)?;
    Ok(walk.count)
}

// `UnknownIes::get`: the element at a number from 0; None past the last.
pub fn kept_get(log: &[u8], used: usize, k: usize) -> Result<Option<Span>, LogError>
    ensures { got_as result ≡ kept_get (used_of log.now used) k }
{
    let walk = walk_kept(content_of(log, used)?, k).ok_or(LogError::Malformed)?;
    Ok(walk.wanted)
}

// The same as a part of the log, IEI first; no octet where there is none.
pub fn kept_element(log: &[u8], used: usize, k: usize) -> &[u8]
    ensures result_value { result.now ≡ part_of log.now (kept_get (used_of log.now used) k).values }
    ensures placed_by { PlacedBy log.entry (kept_get (used_of log.now used) k).values result }
{
    match kept_get(log, used, k) {
        Ok(Some(Span { start, len })) => part(log, start, len),
        _ => &log[..0],
    }
}

// `UnknownIes::clear`: every element out; no octet is used, and none changes. The number of octets then used.
pub fn kept_clear(log: &[u8], used: usize) -> usize
    ensures { pushed_as 2 2 (Ok result) ≡ (kept_clear (used_of log.now used)).said }
{
    0
}

// How many octets a count takes in shortest form.
pub fn count_len(n: usize) -> usize
    ensures { result ≡ length (leb128 n) }
{
    if n < 128 {
        return 1;
    }
    if n < 16_384 {
        return 2;
    }
    3
}

// A count in shortest form into the front of a buffer; how many octets it takes.
fn put_count(out: &mut [u8], n: usize) -> usize
    requires { (n ≤ 65535) × (length (leb128 n) ≤ length out.old) }
    ensures { (result ≡ length (leb128 n)) × (out.new ≡ over (leb128 n) out.old) }
{
    if n < 128 {
        out[0] = n as u8;
        return 1;
    }
    out[0] = (n % 128 + 128) as u8;
    if n < 16_384 {
        out[1] = (n / 128) as u8;
        return 2;
    }
    out[1] = (n / 128 % 128 + 128) as u8;
    out[2] = (n / 128 / 128) as u8;
    3
}

// An IEI and the octets after it into the front of a buffer that has room for them.
fn put_element(out: &mut [u8], iei: u8, octets: &[u8])
    requires { length octets.now < length out.old }
    ensures { out.new ≡ over (iei ∷ octets.now) out.old }
{
    out[0] = iei;
    put_slice(&mut out[1..], octets);
}

// An element behind its count.
fn put_entry(out: &mut [u8], iei: u8, octets: &[u8])
    requires { (length octets.now < 65535) × (length (kept_entry (iei ∷ octets.now)) ≤ length out.old) }
    ensures { out.new ≡ over (kept_entry (iei ∷ octets.now)) out.old }
{
    let c = put_count(out, octets.len() + 1);
    put_element(&mut out[c..], iei, octets);
}

// `UnknownIes::push`: an IEI and the octets after it, behind those used; how many octets are then used.
pub fn kept_push(log: &mut [u8], used: usize, iei: u8, octets: &[u8]) -> Result<usize, PushError>
    ensures said { pushed_as 2 2 result ≡ (kept_push (used_of log.old used) iei octets.now).said }
    ensures log_after { log.new ≡ (kept_push (used_of log.old used) iei octets.now).log }
{
    let content = content_of(&*log, used)?;
    if octets.len() >= MOST_OCTETS {
        return Err(PushError::TooLong);
    }
    let n = octets.len() + 1;
    let after = used + (count_len(n) + n);
    if after > MOST_LOG {
        return Err(PushError::TooLong);
    }
    walk_kept(content, 0).ok_or(PushError::Malformed)?;
    if after > log.len() {
        return Err(PushError::NoRoom);
    }
    put_entry(&mut log[used..], iei, octets);
    Ok(after)
}

// An element, its IEI first, behind its count into the front of a buffer, if it has from 1 to 65,535 octets and there is room;
// how many octets were put.
pub fn put_raw(out: &mut [u8], element: &[u8]) -> usize
    ensures took { result ≡ kept_takes element.now out.old }
    ensures out_after { out.new ≡ kept_into element.now out.old }
{
    let Some((&iei, octets)) = element.split_first() else {
        return 0;
    };
    let n = element.len();
    if n > MOST_OCTETS {
        return 0;
    }
    let need = count_len(n) + n;
    if need > out.len() {
        return 0;
    }
    put_entry(out, iei, octets);
    need
}
