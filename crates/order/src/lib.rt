// The order log: how the elements came, where that is another order than the table's. An entry is 00 and the IEI of an
// accepted element, or one octet: 01 unknown, 02 malformed, 03 repeated, 04 out of sequence. A log is a lent buffer and how
// many of its octets are used.
#![tactic(auto)]

ghost use Rattle.std.specs.Prelude.{◌≡◌, ◌≤◌, ◌<◌, length, get_or, drop, [], ◌∷◌};
ghost use Rattle.definitions.specs.Basic.{is_none};
ghost use Rattle.definitions.specs.Logs.{order_entry, order_list, order_push, order_get};
ghost use Rattle.definitions.proofs.Orders.{order_front, aside_by};
ghost use Rattle.kept.specs.Kept.{pushed_as, used_of, if_room};
ghost use Rattle.order.specs.Order.{placed_as, front_as, Stepped, told_by, tell, start_walk, entry_as};

use kept::{LogError, MOST_LOG, PushError, content_of};

// Why an element that has a place was set aside.
#[derive(Clone, Copy, PartialEq, Eq)]
pub enum IgnoredIeReason {
    Malformed,
    Repeated,
    OutOfSequence,
}

// How an element came: accepted under an IEI, unknown, or set aside.
#[derive(Clone, Copy, PartialEq, Eq)]
pub enum Placed {
    Known(u8),
    Unknown,
    Ignored(IgnoredIeReason),
}

// Where a walk over a log is: its position, the entries passed, and the wanted one, once it is met.
#[derive(Clone, Copy, PartialEq, Eq)]
pub struct OrderWalk {
    pub at: usize,
    pub count: usize,
    pub wanted: Option<Placed>,
}

// How many octets an entry takes.
pub fn entry_len(entry: Placed) -> usize
    ensures { result ≡ length (order_entry (placed_as entry)) }
{
    match entry {
        Placed::Known(_) => 2,
        Placed::Unknown | Placed::Ignored(_) => 1,
    }
}

// The octet of an entry that has one.
fn reason_octet(reason: IgnoredIeReason) -> u8
    ensures { result ≡ get_or (order_entry (placed_as (Placed.Ignored reason))) 0 0 }
{
    match reason {
        IgnoredIeReason::Malformed => 2,
        IgnoredIeReason::Repeated => 3,
        IgnoredIeReason::OutOfSequence => 4,
    }
}

// One octet, and 00 with an IEI, into the front of a buffer, if there is room.
fn put_octet(out: &mut [u8], x: u8)
    ensures { out.new ≡ if_room (x ∷ []) out.old }
{
    if let [first, ..] = out {
        *first = x;
    }
}

fn put_known(out: &mut [u8], iei: u8)
    ensures { out.new ≡ if_room (0 ∷ iei ∷ []) out.old }
{
    // By index: of a pattern that lends two octets at once the proof has no fact to cite.
    if out.len() < 2 {
        return;
    }
    out[0] = 0;
    out[1] = iei;
}

// An entry into the front of a buffer, if there is room for it.
pub fn put_placed(out: &mut [u8], entry: Placed)
    ensures { out.new ≡ if_room (order_entry (placed_as entry)) out.old }
{
    match entry {
        Placed::Known(iei) => put_known(out, iei),
        Placed::Unknown => put_octet(out, 1),
        Placed::Ignored(reason) => put_octet(out, reason_octet(reason)),
    }
}

// The entry of an octet from 1 to 4.
fn aside_entry(x: u8) -> Placed
    requires { (1 ≤ x) × (x ≤ 4) }
    ensures { placed_as result ≡ aside_by x }
{
    match x {
        1 => Placed::Unknown,
        2 => Placed::Ignored(IgnoredIeReason::Malformed),
        3 => Placed::Ignored(IgnoredIeReason::Repeated),
        _ => Placed::Ignored(IgnoredIeReason::OutOfSequence),
    }
}

// The entry at the front of a log. What begins with 0 goes a way of its own, and only there is asked what is left behind it: so the compiled code
// goes on to the next entry without waiting for this one.
pub fn front_at(s: &[u8]) -> Option<Placed>
    ensures { front_as result ≡ order_front s.now }
{
    match s {
        [0, rest @ ..] => match rest {
            [iei, ..] => Some(Placed::Known(*iei)),
            [] => None,
        },
        [x, ..] if *x <= 4 => Some(aside_entry(*x)),
        _ => None,
    }
}

// Whether an order log is malformed.
pub fn order_malformed(order: &[u8]) -> bool
    ensures { result ≡ is_none (order_list order.now) }
{
    let mut at = 0;
    while at < order.len() {
        let Some(entry) = front_at(&order[at..]) else {
            return true;
        };
        at += entry_len(entry);
    }
    false
}

// Past the entry at a position; the one wanted is remembered.
fn order_step(content: &[u8], w: OrderWalk, want: usize) -> Option<OrderWalk>
    requires { (w.at < length content.now) × (w.count ≤ w.at) }
    ensures { Stepped w want (order_front (drop w.at content.now)) result }
{
    let entry = front_at(&content[w.at..])?;
    let wanted = if w.count == want {
        Some(entry)
    } else {
        w.wanted
    };
    Some(OrderWalk {
        at: w.at + entry_len(entry),
        count: w.count + 1,
        wanted,
    })
}

// The whole log once: the wanted entry, if there is one; None where it is malformed.
fn walk_order(content: &[u8], want: usize) -> Option<OrderWalk>
    ensures { told_by result ≡ tell start_walk want (order_list content.now) }
{
    let mut w = OrderWalk {
        at: 0,
        count: 0,
        wanted: None,
    };
    while w.at < content.len() {
        w = order_step(content, w, want)?;
    }
    Some(w)
}

// The entry at a number from 0; None past the last.
pub fn order_get(log: &[u8], used: usize, k: usize) -> Result<Option<Placed>, LogError>
    ensures { entry_as result ≡ order_get (used_of log.now used) k }
{
    let walk = walk_order(content_of(log, used)?, k).ok_or(LogError::Malformed)?;
    Ok(walk.wanted)
}

// `IeOrder::push`: an entry behind those used; how many octets are then used.
pub fn order_push(log: &mut [u8], used: usize, entry: Placed) -> Result<usize, PushError>
    ensures said { pushed_as 1 3 result ≡ (order_push (used_of log.old used) (placed_as entry)).said }
    ensures log_after { log.new ≡ (order_push (used_of log.old used) (placed_as entry)).log }
{
    let content = content_of(&*log, used)?;
    let after = used + entry_len(entry);
    if after > MOST_LOG {
        return Err(PushError::TooLong);
    }
    if order_malformed(content) {
        return Err(PushError::Malformed);
    }
    if after > log.len() {
        return Err(PushError::NoRoom);
    }
    put_placed(&mut log[used..], entry);
    Ok(after)
}
