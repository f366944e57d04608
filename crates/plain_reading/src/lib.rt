// Rows copied and cleared, and logs cleared, for the passes of reading. In specs/, what a part leaves of which a table says all: every
// element is accepted, in table order, under its row's first IEI, so that both logs stay empty, whatever the option.
#![tactic(auto)]

ghost use Rattle.std.specs.Prelude.{◌≡◌, min, length, take, replicate};
ghost use Rattle.definitions.specs.Basic.{over};

// The first n numbers, or as many as there are on both sides.
pub fn copy_rows(rows: &mut [u32], found: &[u32], n: usize)
    ensures { rows.new ≡ over (take (min n (min (length rows.old) (length found.now))) found.now) rows.old }
{
    let m = n.min(rows.len().min(found.len()));
    rows[..m].copy_from_slice(&found[..m]);
}

// No number in the first n, or in as many as there are.
pub fn clear_rows(rows: &mut [u32], n: usize)
    ensures { rows.new ≡ over (replicate (min n (length rows.old)) 0) rows.old }
{
    let m = n.min(rows.len());
    rows[..m].fill(0);
}

// Nothing of a part, in rows and logs.
pub fn clear_all(rows: &mut [u32], kept: &mut [u8], order: &mut [u8])
    ensures rows_after { rows.new ≡ replicate (length rows.old) 0 }
    ensures kept_after { kept.new ≡ replicate (length kept.old) 0 }
    ensures order_after { order.new ≡ replicate (length order.old) 0 }
{
    rows.fill(0);
    kept.fill(0);
    order.fill(0);
}
