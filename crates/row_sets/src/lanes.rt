// Rows side by side.
ghost use Rattle.std.specs.Prelude.{◌≡◌, ◌≢◌, ℕ, ◌+◌, ◌*◌, ◌≤◌, ◌<◌, length, get_or};
ghost use Rattle.rows.specs.Rows.{rows_of};
ghost use Rattle.row_sets.specs.Lanes.{lane_rows};

// The row is laid as the one numbered l. The others keep what they hold.
fn lay_lane(row: &[u16], l: usize, lanes: &mut [u16])
    requires { (l < 32) × (length row.now ≤ 32) × (length lanes.old ≡ 32 * length row.now) }
    ensures { (length lanes.new ≡ 32 * length row.now)
        × ((c : ℕ) → c < length row.now → get_or lanes.new (32 * c + l) 0 ≡ get_or row.now c 0)
        × ((k c : ℕ) → k < 32 → k ≢ l → get_or lanes.new (32 * c + k) 0 ≡ get_or lanes.old (32 * c + k) 0) }
{
    for (c, &m) in row.iter().enumerate() {
        lanes[32 * c + l] = m;
    }
}

// The first `count` rows, of w numbers each, are laid side by side. What stands beside them is left open.
pub fn lay_lanes(rows: &[u16], count: usize, w: usize, lanes: &mut [u16])
    requires { (count ≤ 32) × (w ≤ 32) × (length rows.now ≡ 32 * w) × (length lanes.old ≡ 32 * w) }
    ensures { (length lanes.new ≡ 32 * w) × (lane_rows w count lanes.new ≡ rows_of w count rows.now) }
{
    // By index: the number of a row is that of its lane.
    for l in 0..count {
        let at = w * l;
        lay_lane(&rows[at..at + w], l, lanes);
    }
}
