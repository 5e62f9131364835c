// Rows by rising order.
ghost use Rattle.std.specs.Prelude.{◌≡◌, length};
ghost use Rattle.lane_steps.specs.Functions.{rising};

/// Puts the rows into rising order, in place.
pub fn sort_rows(rows: &mut [u32])
    ensures rising { rows.new ≡ rising rows.old }
    ensures len { length rows.new ≡ length rows.old }
{
    rows.sort_unstable();
}
