// By a table and any index, a part of which they say all: every element is accepted, in
// table order, under its row's first IEI. One pass finds its rows, before anything is written; its logs stay empty, whatever the start
// number and the option.
#![tactic(auto)]

ghost use Rattle.std.specs.Prelude.{◌≡◌, Bool, true, ℕ, ◌*◌, ◌≤◌, length};
ghost use Rattle.std.proofs.Math.Option.{none, some};
ghost use Rattle.definitions.specs.Basic.{pick};
ghost use Rattle.definitions.specs.Rows.{rows_of};
ghost use Rattle.definitions.specs.Elements.{parted};
ghost use Rattle.rows.specs.Indexed.{Indexed};
ghost use Rattle.by_index.specs.ByIndex.{rows_by};
ghost use Rattle.plain_reading.specs.Plains.{plain_rows, Plainly};
ghost use Rattle.filling.specs.Noted.{Fits};
ghost use Rattle.plain_by_table.specs.PlainBy.{holds, PlainBy};

use elements::element::{fit_of, header, iei_of, place_by};
use octets::MOST_OCTETS;
use plain_reading::copy_rows;
use rows::columns::{form_of, numbers_at, places};
use rows::lent::put_row;

// Whether table and index say all of a part. If so its elements are entered into the rows; if not, the rows are of no use. A row that the
// table has not takes no element.
fn plain_pass(octets: &[u8], table: &[u32], index: &[u8; 256], found: &mut [u32]) -> bool
    requires { Fits table.now octets.now (length found.old) }
    ensures { (start : ℕ) (option : Bool) → pick result (some found.new) none ≡ plain_rows (rows_by table.now index.now) 0 (parted (rows_by table.now index.now) start option octets.now) found.old }
{
    let mut at = 0;
    let mut least = 0;
    while at < octets.len() {
        let iei = iei_of(octets[at]);
        let Some(place) = place_by(index, iei) else {
            return false;
        };
        if place < least {
            return false;
        }
        let row = numbers_at(table, place);
        if u32::from(iei) != row.first {
            return false;
        }
        let fit = fit_of(&octets[at..], row);
        if !fit.taken {
            return false;
        }
        let n = fit.len;
        let h = header(form_of(row.code, row.size));
        put_row(
            found,
            4 * place,
            [1, (at + h) as u32, (n - h) as u32, row.first],
        );
        least = place + 1;
        at += n;
    }
    true
}

// Whether a part is not too long, and there are four numbers of rows for each place of a table, which has 128 at most.
fn fits(octets: &[u8], table: &[u32], room: usize) -> bool
    ensures { result ≡ holds table.now octets.now room }
{
    // one test after the other: the proof of `&&` did not close
    let n = places(table);
    if octets.len() > MOST_OCTETS {
        return false;
    }
    if n > 128 {
        return false;
    }
    4 * n <= room
}

// By an array of so many numbers, which holds the rows of every place. It is cleared at each call, so it is of one of three lengths.
fn plain_in<const N: usize>(
    octets: &[u8],
    table: &[u32],
    index: &[u8; 256],
    rows: &mut [u32],
) -> bool
    requires { Fits table.now octets.now (length rows.old) × (4 * length (rows_of table.now) ≤ N) × (N ≤ 512) }
    ensures { (start : ℕ) (option : Bool) → PlainBy table.now index.now start option octets.now rows.old result rows.new }
{
    let mut found = [0u32; N];
    let plain = plain_pass(octets, table, index, &mut found);
    if plain {
        copy_rows(rows, &found, 4 * places(table));
    }
    plain
}

// Whether a part that is not too long, with room for its rows, is one of which table and index say all; if so its rows, else all as it
// was.
pub fn plain(octets: &[u8], table: &[u32], index: &[u8; 256], rows: &mut [u32]) -> bool
    ensures by_index { (start : ℕ) (option : Bool) → PlainBy table.now index.now start option octets.now rows.old result rows.new }
    ensures plainly { Indexed table.now index.now → holds table.now octets.now (length rows.old) ≡ true → (start : ℕ) (option : Bool) → Plainly (rows_of table.now) (parted (rows_of table.now) start option octets.now) result rows.old rows.new }
{
    if !fits(octets, table, rows.len()) {
        return false;
    }
    let n = 4 * places(table);
    if n <= 64 {
        return plain_in::<64>(octets, table, index, rows);
    }
    if n <= 160 {
        return plain_in::<160>(octets, table, index, rows);
    }
    plain_in::<512>(octets, table, index, rows)
}
