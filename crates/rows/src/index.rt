// An index: for each IEI its place, or 255.
ghost use Rattle.std.specs.Prelude.{◌≡◌};
ghost use Rattle.definitions.specs.Rows.{place_in};
ghost use Rattle.rows.specs.Answers.{place_as};

// The entry of an IEI that has no place.
pub const NO_PLACE: u8 = 255;

// What an index says of an IEI.
pub fn place_of(index: &[u8], iei: u8) -> Option<usize>
    ensures { place_as result ≡ place_in index.now iei }
{
    let &place = index.get(usize::from(iei))?;
    // An `if`, whose way the processor guesses: of `then_some` it waits for the entry.
    if place == NO_PLACE {
        return None;
    }
    Some(usize::from(place))
}
