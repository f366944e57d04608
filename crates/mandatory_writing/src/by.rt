// Writing by table number: 0 has no mandatory row, 1 to 6 are the six messages. Each table is proved to pass its check.
ghost use Rattle.definitions.specs.Mandatory.{mandatory_writing_by};
ghost use Rattle.kept.specs.Kept.{used_of};
ghost use Rattle.mandatory_writing.specs.Writes.{Writes};

use crate::encode::{MandatoryWriteError, encode_checked};
use real::mandatory;

pub fn encode_mandatory_ies_by<'a>(
    number: u32,
    rows: &[u32],
    received: &'a [u8],
    set: &'a [u8],
    set_used: usize,
    output: &mut [u8],
) -> Result<usize, MandatoryWriteError>
    ensures { Writes (mandatory_writing_by number rows.now received.now (used_of set.now set_used) output.old) result output.new }
{
    let Some(table) = mandatory(number) else {
        return Err(MandatoryWriteError::NoTable);
    };
    encode_checked(table, rows, received, set, set_used, output)
}
