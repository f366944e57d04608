// Whether the rows of places agree with the order log: each present one has the earliest IEI that the log gives its place, or the
// place's first where the log gives none.
#![tactic(auto)]

ghost use Rattle.std.specs.Prelude.{◌≡◌, ◌||◌};
ghost use Rattle.definitions.specs.Values.{unlike};
ghost use Rattle.seen.specs.Seen.{set_of};
ghost use Rattle.values.specs.Rows.{value_of};
ghost use Rattle.agreement.specs.Agreed.{apart_by};

use seen::Seen;
use values::row::{ValueRow, row_at};

// Whether a row is present under another IEI.
pub fn is_unlike(row: ValueRow, iei: u32) -> bool
    ensures { result ≡ unlike (value_of row) iei }
{
    if row.source == 0 {
        return false;
    }
    row.iei != iei
}

// Whether a row disagrees, with an IEI of one place more: it is judged where the place was not seen before.
pub fn apart_with(rows: &[u32], seen: Seen, apart: bool, place: usize, iei: u32) -> bool
    ensures { result ≡ (apart || apart_by rows.now (set_of seen) place iei) }
{
    if apart {
        return true;
    }
    if seen.has(place) {
        return false;
    }
    is_unlike(row_at(rows, place), iei)
}
