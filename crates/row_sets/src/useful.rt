// The useful sets of a reaching row at a point of a block.
ghost use Rattle.std.specs.Prelude.{◌≡◌, ℕ, ◌*◌, ◌≤◌, ◌<◌, length, get_or, replicate};
ghost use Rattle.std.specs.Int.Bits.{bit_or};
ghost use Rattle.rows.specs.Overlay.{overlay};
ghost use Rattle.rows.specs.Rows.{Width};
ghost use Rattle.row_sets.specs.Lanes.{lane_row, marked_bit};
ghost use Rattle.row_sets.specs.Sets.{useful_set, kept_set};

use cache::row::Row;
use cache::sets::{replaced, used};

// The cache blocks of a reaching row that can be useful where `rest` holds the first references of what is left of the block.
pub fn kept(row: &[u16], rest: &[u16]) -> u32
    requires { Width (length row.now) × (length rest.now ≡ length row.now) }
    ensures { result ≡ kept_set row.now rest.now }
{
    let set = used(row);
    set & (set ^ replaced(rest, row))
}

// Each of the first `lived` sets gets the cache block of this bit where its row holds m, overlaid by x: `lane` has what the rows hold there.
fn mark_lane(lane: &[u16], lived: usize, x: u16, m: u16, bit: u32, sets: &mut [u32])
    requires { (length lane.now ≡ 32) × (lived ≤ 32) × (length sets.old ≡ 32) }
    ensures { (length sets.new ≡ 32)
        × ((l : ℕ) → l < lived → get_or sets.new l 0 ≡ bit_or (get_or sets.old l 0) (marked_bit x m bit (get_or lane.now l 0))) }
{
    // By index: the lane and the sets are at the same place.
    for l in 0..lived {
        let held = if x == Row::NOTHING { lane[l] } else { x };
        sets[l] |= if held == m { bit } else { 0 };
    }
}

// The useful sets of a reaching row with each of the first `lived` live rows of the block, which lie side by side, overlaid by the rest; all are as wide
// as the row. What stands after these sets is left open.
pub fn useful_sets(row: &[u16], rest: &[u16], lanes: &[u16], lived: usize, sets: &mut [u32])
    requires { Width (length row.now) × (length rest.now ≡ length row.now) × (length lanes.now ≡ 32 * length row.now) × (lived ≤ 32)
        × (sets.old ≡ replicate 32 0) }
    ensures { (length sets.new ≡ 32) × ((l : ℕ) → l < lived
        → get_or sets.new l 0 ≡ useful_set row.now (overlay (lane_row (length row.now) lanes.now l) rest.now)) }
{
    // By index: the row, the rest and the lanes are at the same cache block.
    for c in 0..row.len() {
        let m = row[c];
        if m != Row::NOTHING {
            let at = 32 * c;
            mark_lane(&lanes[at..at + 32], lived, rest[c], m, 1 << c, sets);
        }
    }
}
