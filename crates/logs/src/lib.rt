// Whether the logs are too long, and whether a log is well formed: each by itself, as writing and setting ask, and both at once, as the findings do.
#![tactic(auto)]

ghost use Rattle.std.specs.Prelude.{◌≡◌, ◌||◌, ◌≤◌};
ghost use Rattle.definitions.specs.Basic.{too_long, most_log};
ghost use Rattle.definitions.specs.Logs.{order_list, kept_list};
ghost use Rattle.kept.specs.Kept.{used_of};
ghost use Rattle.logs.specs.Checks.{kept_octets, checked_logs};
ghost use Rattle.logs.specs.Walks.{Keeping};

use kept::{Count, MOST_LOG, entry_at, too_long};
pub use order::order_malformed;

// Which of two logs is malformed.
#[derive(Clone, Copy, PartialEq, Eq)]
pub enum MalformedLog {
    Order,
    Kept,
}

// Whether a log is too long, or a used count above its buffer.
pub fn logs_long(order: &[u8], order_used: usize, kept: &[u8], kept_used: usize) -> bool
    ensures { result ≡ (too_long most_log (used_of order.now order_used) || too_long most_log (used_of kept.now kept_used)) }
{
    too_long(order, order_used, MOST_LOG) || too_long(kept, kept_used, MOST_LOG)
}

// Where a walk over a kept log is, and the octets of the elements before it.
#[derive(Clone, Copy, PartialEq, Eq)]
pub struct Along {
    pub at: usize,
    pub octets: usize,
}

// Past the entries that have so many octets, each behind a count of one octet. Such entries often stand together, and where one is known to
// begin, the count need not be waited for.
fn past_like(kept: &[u8], from: Along, n: usize) -> Along
    requires { Keeping kept.now from.at from.octets }
    ensures { Keeping kept.now result.at result.octets × (from.at ≤ result.at) }
{
    let mut along = from;
    if n < 1 || n > 127 {
        return along;
    }
    while kept.len() - along.at > n && kept[along.at] == n as u8 {
        along = Along {
            at: along.at + (n + 1),
            octets: along.octets + n,
        };
    }
    along
}

// The octets of all elements of a kept log, which is measured to its end; None where it is malformed.
pub fn kept_len(kept: &[u8]) -> Option<usize>
    ensures { result ≡ kept_octets (kept_list kept.now) }
{
    let mut along = Along { at: 0, octets: 0 };
    while along.at < kept.len() {
        let Count { value, took } = entry_at(&kept[along.at..])?;
        let next = Along {
            at: along.at + (took + value),
            octets: along.octets + value,
        };
        along = past_like(kept, next, value);
    }
    Some(along.octets)
}

// Two logs: the octets of all kept elements, or the first of the two that is malformed, the order log before the kept log.
pub fn check_logs(order: &[u8], kept: &[u8]) -> Result<usize, MalformedLog>
    ensures { result ≡ checked_logs (order_list order.now) (kept_list kept.now) }
{
    if order_malformed(order) {
        return Err(MalformedLog::Order);
    }
    kept_len(kept).ok_or(MalformedLog::Kept)
}
