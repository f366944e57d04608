// How much reading a part needs of the lent logs, before anything is written; and whether memory holds what any part of a length needs.
#![tactic(auto)]

ghost use Rattle.std.specs.Prelude.{◌≡◌, ◌&&◌, ◌*◌, length, leb};
ghost use Rattle.definitions.specs.Basic.{most_octets};
ghost use Rattle.definitions.specs.Rows.{rows_of};
ghost use Rattle.definitions.specs.Elements.{parted};
ghost use Rattle.rows.specs.Indexed.{Indexed};
ghost use Rattle.by_index.specs.ByIndex.{rows_by};
ghost use Rattle.measuring.specs.Measures.{measured};

use elements::element::Cut;
use elements::next::start_state;
use elements::walk::{Tally, steps};
use octets::MOST_OCTETS;
use rows::columns::places;

// The whole part, by a table and an index: by its own index, of a table that passes its check, what reading needs. It has no more elements
// than octets.
pub fn measure(
    part: &[u8],
    table: &[u32],
    index: &[u8; 256],
    tlve_start: u8,
    option: bool,
) -> Result<Tally, Cut>
    ensures by_index { result ≡ measured (parted (rows_by table.now index.now) tlve_start option part.now) }
    ensures own_index { Indexed table.now index.now → result ≡ measured (parted (rows_of table.now) tlve_start option part.now) }
{
    let walk = steps(
        part,
        table,
        index,
        tlve_start,
        option,
        start_state(),
        part.len(),
    )?;
    Ok(walk.needs)
}

// Whether rows and logs of so many numbers hold what any part of so many octets needs.
pub fn may_hold(octets: usize, table: &[u32], rows: usize, kept: usize, order: usize) -> bool
    ensures { result ≡ (leb octets most_octets && (leb (4 * length (rows_of table.now)) rows && (leb (2 * octets) kept && leb (2 * octets) order))) }
{
    octets <= MOST_OCTETS && places(table) <= rows / 4 && octets <= kept / 2 && octets <= order / 2
}
