// What is wrong with the order of a part, by its two logs: for each finding the number of an entry of the order log and a kind.
#![tactic(auto)]

mod walk;

ghost use Rattle.std.specs.Prelude.{◌≡◌};
ghost use Rattle.definitions.specs.Findings.{finding};
ghost use Rattle.kept.specs.Kept.{used_of};
ghost use Rattle.findings.specs.Findings.{Finds, finding_in, noted_in};
ghost use Rattle.findings.specs.Walks.{WellFormed, all_in};

use crate::walk::{count_findings, put_findings};
use checks::{BadRow, check_and_index};
use logs::{MalformedLog, check_logs, logs_long};

// Why there are no findings.
#[derive(Clone, Copy, PartialEq, Eq)]
pub enum FindError {
    BadTable(usize),
    TooLong,
    Malformed(MalformedLog),
    NoRoom,
}

impl From<BadRow> for FindError {
    ghost use Rattle.findings.specs.declared.FindError.{FindError};

    ghost from_gives = { λ bad e. e ≡ FindError.BadTable bad.0 };

    fn from(bad: BadRow) -> FindError {
        FindError::BadTable(bad.0)
    }
}

impl From<MalformedLog> for FindError {
    ghost use Rattle.findings.specs.declared.FindError.{FindError};

    ghost from_gives = { λ log e. e ≡ FindError.Malformed log };

    fn from(log: MalformedLog) -> FindError {
        FindError::Malformed(log)
    }
}

// By two logs that are well formed: counted first, and written if there is room for all.
fn find(index: &[u8], order: &[u8], kept: &[u8], findings: &mut [u32]) -> Result<usize, FindError>
    requires { WellFormed order.now kept.now }
    ensures { Finds (noted_in (all_in index.now order.now kept.now) findings.old) result findings.new }
{
    let n = count_findings(index, order, kept);
    if findings.len() < 2 * n {
        return Err(FindError::NoRoom);
    }
    put_findings(index, order, kept, findings);
    Ok(n)
}

// The checks behind the table's, by the index of a table that passes.
fn find_by_index(
    index: &[u8],
    kept: &[u8],
    kept_used: usize,
    order: &[u8],
    order_used: usize,
    findings: &mut [u32],
) -> Result<usize, FindError>
    ensures { Finds (finding_in index.now (used_of order.now order_used) (used_of kept.now kept_used) findings.old) result findings.new }
{
    if logs_long(order, order_used, kept, kept_used) {
        return Err(FindError::TooLong);
    }
    let order = &order[..order_used];
    let kept = &kept[..kept_used];
    check_logs(order, kept)?;
    find(index, order, kept, findings)
}

// `optional_ie_order_findings`: two numbers each, an entry's number and its kind, into the front of the lent findings.
pub fn optional_ie_order_findings(
    table: &[u32],
    kept: &[u8],
    kept_used: usize,
    order: &[u8],
    order_used: usize,
    findings: &mut [u32],
) -> Result<usize, FindError>
    ensures { Finds (finding table.now (used_of order.now order_used) (used_of kept.now kept_used) findings.old) result findings.new }
{
    let mut index = [255u8; 256];
    check_and_index(table, &mut index)?;
    find_by_index(&index, kept, kept_used, order, order_used, findings)
}
