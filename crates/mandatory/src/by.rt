// Reading by table number: 0 has no mandatory row, 1 to 6 are the six messages. Each table is proved to pass its check.
ghost use Rattle.definitions.specs.Mandatory.{mandatory_reading_by};
ghost use Rattle.mandatory.specs.Reads.{Reads};

use crate::decode::{MandatoryError, MandatoryRead, decode_checked, unread};
use real::mandatory;

pub fn decode_mandatory_ies_by(
    number: u32,
    part: &[u8],
    lenient: bool,
    rows: &mut [u32],
) -> MandatoryRead
    ensures { Reads (mandatory_reading_by number lenient part.now rows.old) result rows.new }
{
    match mandatory(number) {
        Some(table) => decode_checked(part, table, lenient, rows),
        None => unread(MandatoryError::NoTable),
    }
}
