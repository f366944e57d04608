// The rows of places beside the order log: whether one disagrees with it, and the IEI that it gives a place.
ghost use Rattle.std.specs.Prelude.{◌≡◌, ◌&&◌, not, ◌≤◌, eqb, length};
ghost use Rattle.std.proofs.Math.Option.{none};
ghost use Rattle.definitions.specs.Basic.{pick, bit};
ghost use Rattle.definitions.specs.Rows.{rows_of, first_iei, first_bad};
ghost use Rattle.definitions.specs.Values.{any_of};
ghost use Rattle.definitions.proofs.LogSteps.{OrderAt};
ghost use Rattle.order.specs.Order.{placed_as};
ghost use Rattle.seen.specs.Seen.{set_of};
ghost use Rattle.agreement.specs.Agreed.{apart_by};
ghost use Rattle.edits.specs.Logged.{Tabled, AgreedWith, AgreedBy, JudgedBy};

use agreement::apart_with;
use order::{Placed, entry_len, front_at};
use rows::columns::{numbers_at, places};
use rows::index::place_of;
use seen::Seen;

// The places that the log named so far, whether a row disagrees with the earliest IEI of its place, and the IEI of a wanted place.
#[derive(Clone, Copy, PartialEq, Eq)]
pub struct Agreed {
    pub seen: Seen,
    pub apart: bool,
    pub iei: u32,
}

// The IEI of a wanted place with that of one place more: the earliest stays.
fn iei_with(seen: Seen, place: usize, want: usize, iei: u32, before: u32) -> u32
    ensures { result ≡ pick (eqb place want && not (bit place (set_of seen))) iei before }
{
    if place == want && !seen.has(place) {
        iei
    } else {
        before
    }
}

// With one entry more of the log.
fn with_entry(
    table: &[u32],
    index: &[u8],
    rows: &[u32],
    want: usize,
    a: Agreed,
    entry: Placed,
) -> Agreed
    requires { Tabled table.now index.now }
    ensures { AgreedWith (rows_of table.now) rows.now want (placed_as entry) a result }
{
    let seen = a.seen;
    match entry {
        Placed::Known(iei) => match place_of(index, iei) {
            Some(k) => Agreed {
                seen: seen.with(k),
                apart: apart_with(rows, seen, a.apart, k, iei as u32),
                iei: iei_with(seen, k, want, iei as u32, a.iei),
            },
            None => a,
        },
        Placed::Unknown => a,
        Placed::Ignored(_) => a,
    }
}

// The whole log, which is well formed.
fn walk_log(table: &[u32], index: &[u8], rows: &[u32], order: &[u8], want: usize) -> Agreed
    requires { Tabled table.now index.now × (length order.now ≤ 131070) × OrderAt order.now 0 }
    ensures { AgreedBy (rows_of table.now) rows.now want order.now result }
{
    let row = numbers_at(table, want);
    let mut at = 0;
    let mut a = Agreed {
        seen: Seen::new(),
        apart: false,
        iei: row.first,
    };
    while at < order.len() {
        let Some(entry) = front_at(&order[at..]) else {
            return a;
        };
        a = with_entry(table, index, rows, want, a, entry);
        at += entry_len(entry);
    }
    a
}

// Whether a present place that was not seen has another IEI than its first.
fn rest_apart(table: &[u32], rows: &[u32], seen: Seen) -> bool
    requires { first_bad (rows_of table.now) ≡ none }
    ensures { result ≡ any_of (λ k. apart_by rows.now (set_of seen) k (first_iei (rows_of table.now) k)) (length (rows_of table.now)) }
{
    for k in 0..places(table) {
        if apart_with(rows, seen, false, k, numbers_at(table, k).first) {
            return true;
        }
    }
    false
}

// All rows beside the whole log: the IEI that it gives a wanted place; None where a row disagrees with it.
pub(crate) fn judge(
    table: &[u32],
    index: &[u8],
    rows: &[u32],
    order: &[u8],
    want: usize,
) -> Option<u32>
    requires { Tabled table.now index.now × (length order.now ≤ 131070) × OrderAt order.now 0 }
    ensures { JudgedBy (rows_of table.now) rows.now want order.now result }
{
    let a = walk_log(table, index, rows, order, want);
    if a.apart {
        return None;
    }
    if rest_apart(table, rows, a.seen) {
        return None;
    }
    Some(a.iei)
}
