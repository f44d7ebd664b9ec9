// The parts of a filled work area: the rows of all blocks in dictionary order, and their counts.
ghost use Rattle.std.specs.Prelude.{◌≡◌, ◌++◌, length, take, drop, replicate};
ghost use Rattle.rows.specs.Rows.{kind_length, area_length};
ghost use Rattle.area.specs.Area.{block_parts};
ghost use Rattle.area.specs.Kinds.{sorted_rows, Counts, Distinct, sorted_area};

use sort::sort_rows;

// The rows of each of 24 blocks are put in dictionary order; unfilled rows become rows of nothings.
pub fn sort_blocks(rows: &mut [u16], counts: &[usize], w: usize)
    requires { Distinct w rows.old counts.now }
    ensures { rows.new ≡ block_parts w (sorted_rows w rows.old counts.now) 24 0 }
{
    let part = 32 * w;
    // By index: the block numbered b has a part of the rows and a count.
    for b in 0..24 {
        let at = part * b;
        sort_rows(&mut rows[at..at + part], counts[b], w);
    }
}

// The counts of 24 blocks are written.
fn write_kind(part: &mut [u16], counts: &[usize])
    requires { (length part.old ≡ 24) × Counts counts.now }
    ensures { part.new ≡ counts.now }
{
    // By index: both lists are at the same block.
    for b in 0..24 {
        part[b] = counts[b] as u16;
    }
}

// The counts of an area: 24 of reaching rows, 24 of live rows, then zeros.
pub fn write_counts(part: &mut [u16], reaching: &[usize], live: &[usize])
    requires { (length part.old ≡ 256) × Counts reaching.now × Counts live.now }
    ensures { part.new ≡ reaching.now ++ (live.now ++ replicate 208 0) }
{
    write_kind(&mut part[0..24], reaching);
    write_kind(&mut part[24..48], live);
    part[48..256].fill(0);
}

// The rows of an area, both kinds in any order, are put in dictionary order, and the counts are written.
pub fn sort_area(area: &mut [u16], w: usize, reaching: &[usize], live: &[usize])
    requires { (length area.old ≡ area_length w) × Distinct w (take (kind_length w) area.old) reaching.now × Distinct w (take (kind_length w) (drop (kind_length w) area.old)) live.now }
    ensures { area.new ≡ sorted_area w area.old reaching.now live.now }
{
    let kind = 24 * (32 * w);
    let counts = 2 * kind;
    sort_blocks(&mut area[0..kind], reaching, w);
    sort_blocks(&mut area[kind..counts], live, w);
    write_counts(&mut area[counts..counts + 256], reaching, live);
}
