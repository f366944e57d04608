// A walk over the elements of a part, so many at most: where reading is behind them, how the last one came, and what they need of the logs.
// Measuring is this walk over all of them, and one element at a time is a walk over one: so the choice between `came_known` and
// `came_unknown`, by what the index says, stands here and in filling alone.
ghost use Rattle.std.specs.Prelude.{◌≡◌, ◌+◌, ◌*◌, ◌≤◌, ◌<◌, ◌^◌};
ghost use Rattle.by_index.specs.ByIndex.{rows_by};
ghost use Rattle.elements.specs.Walked.{tallied, begun, stepped};
ghost use Rattle.order.specs.declared.Placed.{Placed};

use crate::element::{Cut, State, after, came_known, came_unknown, iei_of, place_by};
use kept::count_len;
use order::Placed;
use rows::columns::numbers_at;

// What elements need: octets of the kept log, and of an order log with an entry for each.
#[derive(Clone, Copy, PartialEq, Eq)]
pub struct Tally {
    pub kept: usize,
    pub order: usize,
}

#[derive(Clone, Copy, PartialEq, Eq)]
pub struct Walk {
    pub state: State,
    pub placed: Placed,
    pub needs: Tally,
}

// With one element more.
fn with_element(t: Tally, len: usize, placed: Placed) -> Tally
    requires { (1 ≤ len) × (t.kept + 2 * len < 2 ^ 64) × (t.order + 2 < 2 ^ 64) }
    ensures { result ≡ tallied t len placed }
{
    match placed {
        Placed::Known(_) => Tally {
            kept: t.kept,
            order: t.order + 2,
        },
        Placed::Unknown | Placed::Ignored(_) => aside(t, len),
    }
}

// With one element more that no row took.
fn aside(t: Tally, len: usize) -> Tally
    requires { (1 ≤ len) × (t.kept + 2 * len < 2 ^ 64) × (t.order + 2 < 2 ^ 64) }
    ensures { result ≡ tallied t len Placed.Unknown }
{
    Tally {
        kept: t.kept + (count_len(len) + len),
        order: t.order + 1,
    }
}

// By a table and an index, from a state on. Where there is no element, the last one came as an unknown one and nothing is needed.
pub fn steps(
    part: &[u8],
    table: &[u32],
    index: &[u8; 256],
    tlve_start: u8,
    option: bool,
    from: State,
    most: usize,
) -> Result<Walk, Cut>
    ensures { result ≡ stepped (rows_by table.now index.now) tlve_start option part.now most (begun from) }
{
    let mut state = from;
    let mut last = Placed::Unknown;
    let mut t = Tally { kept: 0, order: 0 };
    for _ in 0..most {
        let at = state.at;
        let Some(&x) = part.get(at) else {
            break;
        };
        let iei = iei_of(x);
        let left = &part[at..];
        let place = place_by(index, iei);
        let came = match place {
            Some(place) => {
                let row = numbers_at(table, place);
                let again = state.seen.has(place);
                came_known(left, row, iei, option, again, place < state.highest)
            }
            None => came_unknown(left, x, tlve_start).map_err(|cut| Cut {
                start: at,
                first: x,
                left: left.len(),
                missing: cut.missing,
            })?,
        };
        t = with_element(t, came.len, came.placed);
        state = after(state, place, at + came.len);
        last = came.placed;
    }
    Ok(Walk {
        state,
        placed: last,
        needs: t,
    })
}
