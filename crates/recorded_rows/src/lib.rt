// Whether place rows are the recorded ones, by a list of the present places, each with its number, start, length and IEI, and whether what is behind them
// is as it was lent.
#![tactic(auto)]

ghost use Rattle.std.specs.Prelude.{◌≡◌, drop};
ghost use Rattle.recorded.specs.Format.{after as after-of};
ghost use Rattle.recorded_rows.specs.Places.{all_are, row_is, place_is, next_is, behind_place, places_from};

use recorded::lent::LENT_NUMBER;
use recorded::{Position, after, cell};

// Whether all numbers from a position on are x.
fn is_from(s: &[u32], at: usize, x: u32) -> bool
    ensures { result ≡ all_are x (drop at s.now) }
{
    s.iter().skip(at).all(|y| *y == x)
}

fn row_is(rows: &[u32], at: usize, source: u32, start: u32, len: u32, iei: u32) -> bool
    ensures { result ≡ row_is rows.now at source start len iei }
{
    cell(rows, at) == source
        && cell(rows, after(at, 1)) == start
        && cell(rows, after(at, 2)) == len
        && cell(rows, after(at, 3)) == iei
}

// Whether a row is the recorded place there, or four times 0.
fn place_is(place: Position, is_present: bool, rows: &[u32], row_at: usize) -> bool
    ensures { result ≡ place_is place.entry.at place.entry.list.now is_present rows.now row_at }
{
    if !is_present {
        return row_is(rows, row_at, 0, 0, 0, 0);
    }
    row_is(
        rows,
        row_at,
        1,
        place.after(1).two() as u32,
        place.after(3).two() as u32,
        u32::from(place.after(5).octet()),
    )
}

// Whether the next recorded place, if there is one, is k. It is a test and no Option, since what is not that place stays the next one.
fn is_next(place: Position, end: Position, k: usize) -> bool
    ensures { result ≡ next_is place.entry.at place.entry.list.now end.entry.at k }
{
    place.at < end.at && usize::from(place.octet()) == k
}

fn behind_place(place: Position, is_present: bool) -> Position
    ensures list { result.list.now ≡ place.entry.list.now }
    ensures at { result.at ≡ behind_place place.entry.at is_present }
{
    if is_present { place.after(6) } else { place }
}

// Whether n rows are the recorded places, which stand in their order behind an octet, and what was lent behind them.
pub fn places_are(places: Position, end: Position, n: usize, rows: &[u32]) -> bool
    ensures { result ≡ places_from places.entry.list.now end.entry.at rows.now n (after-of places.entry.at 1) 0 0 }
{
    let mut place = places.after(1);
    let mut row_at = 0;
    for k in 0..n {
        let is_present = is_next(place, end, k);
        if !place_is(place, is_present, rows, row_at) {
            return false;
        }
        place = behind_place(place, is_present);
        row_at = after(row_at, 4);
    }
    place.at == end.at && is_from(rows, row_at, LENT_NUMBER)
}
