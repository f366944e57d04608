// An entry of the order log from a number and an IEI.
#![tactic(auto)]

ghost use Rattle.std.specs.Prelude.{◌≡◌};
ghost use Rattle.kept.specs.Kept.{pushed_as, used_of};
ghost use Rattle.order.specs.Order.{front_as};
ghost use Rattle.entries.specs.Entries.{placed_by, order_push_by};

use kept::{PushError, content_of};
use order::{IgnoredIeReason, Placed, order_push};

// 0 is an accepted element with its IEI, 1 to 4 are the others, whatever the IEI; a number over 4 is no entry.
fn entry_of(entry: u8, iei: u8) -> Option<Placed>
    ensures { front_as result ≡ placed_by «entry» iei }
{
    match entry {
        0 => Some(Placed::Known(iei)),
        1 => Some(Placed::Unknown),
        2 => Some(Placed::Ignored(IgnoredIeReason::Malformed)),
        3 => Some(Placed::Ignored(IgnoredIeReason::Repeated)),
        4 => Some(Placed::Ignored(IgnoredIeReason::OutOfSequence)),
        _ => None,
    }
}

// Behind the octets used; what is no entry is refused right after the check of the used count.
pub fn push_by(log: &mut [u8], used: usize, entry: u8, iei: u8) -> Result<usize, PushError>
    ensures said { pushed_as 1 3 result ≡ (order_push_by (used_of log.old used) «entry» iei).said }
    ensures log_after { log.new ≡ (order_push_by (used_of log.old used) «entry» iei).log }
{
    let Some(placed) = entry_of(entry, iei) else {
        content_of(&*log, used)?;
        return Err(PushError::Malformed);
    };
    order_push(log, used, placed)
}
