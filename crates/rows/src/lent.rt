// Numbers put into rows that are lent.
ghost use Rattle.std.specs.Prelude.{◌≡◌};
ghost use Rattle.rows.specs.Lent.{put_row};

// The numbers of a row from a position on, if there is room for all of them.
pub fn put_row<const N: usize>(rows: &mut [u32], at: usize, numbers: [u32; N])
    ensures { rows.new ≡ put_row at numbers.entry rows.old }
{
    let Some(end) = at.checked_add(N) else {
        return;
    };
    if end <= rows.len() {
        rows[at..end].copy_from_slice(&numbers);
    }
}
