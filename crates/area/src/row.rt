// Row: the rows of a filled work area.
ghost use Rattle.std.specs.Prelude.{◌≡◌, ◌+◌, ◌*◌, ◌<◌, ◌≤◌, length};
ghost use Rattle.rows.specs.Rows.{kind_length, area_length};
ghost use Rattle.area.specs.RowPart.{kind_start, count_in, row_start, row_length, row_part};

// Where a row stands in a work area, and how long it is.
#[derive(Clone, Copy)]
pub struct RowPlace {
    pub start: usize,
    pub length: usize,
}

// The empty part at the area's start, which stands for a row that is not there.
const NOWHERE: RowPlace = RowPlace {
    start: 0,
    length: 0,
};

// How many rows of w places the area says that a block has.
fn count_in(area: &[u16], w: usize, live: bool, block: usize) -> usize
    requires { (w ≤ 32) × (length area.now ≡ area_length w) × (block < 24) }
    ensures { result ≡ count_in w area.now live block }
{
    let counts = 2 * (24 * (32 * w));
    if live {
        return usize::from(area[counts + 24 + block]);
    }
    usize::from(area[counts + block])
}

// Where the rows of a kind begin.
fn kind_start(w: usize, live: bool) -> usize
    requires { w ≤ 32 }
    ensures { (result ≡ kind_start w live) × (result ≤ kind_length w) }
{
    if live {
        return 24 * (32 * w);
    }
    0
}

// Where the asked row of w places stands; an empty part at the area's start where there is none.
fn row_place_in(area: &[u16], w: usize, live: bool, block: usize, number: usize) -> RowPlace
    requires { w ≤ 32 }
    ensures { (result.start ≡ row_start w area.now live block number) × (result.length ≡ row_length w area.now live block number) }
{
    if area.len() != 2 * (24 * (32 * w)) + 256 {
        return NOWHERE;
    }
    if 24 <= block {
        return NOWHERE;
    }
    let count = count_in(area, w, live, block);
    if 32 < count {
        return NOWHERE;
    }
    if count <= number {
        return NOWHERE;
    }
    RowPlace {
        start: kind_start(w, live) + (32 * block + number) * w,
        length: w,
    }
}

// Where the asked row stands; an empty part at the area's start where there is none.
pub fn row_place(area: &[u16], live: bool, block: usize, number: usize) -> RowPlace
    ensures { (result.start ≡ row_start 16 area.now live block number) × (result.length ≡ row_length 16 area.now live block number) }
{
    row_place_in(area, 16, live, block, number)
}

// The asked row of w places as that part of the area; where there is none, an empty part at the area's start.
fn row_in(area: &[u16], w: usize, live: bool, block: usize, number: usize) -> &[u16]
    requires { w ≤ 32 }
    ensures { (result.now ≡ row_part w area.now live block number)
        × (result.ref_ptr.0 ≡ area.entry.ref_ptr.0) × (result.ref_ptr.1 ≡ area.entry.ref_ptr.1 + row_start w area.now live block number * 2) }
{
    let found = row_place_in(area, w, live, block, number);
    let from = found.start;
    let to = from + found.length;
    &area[from..to]
}

// Row: the asked row as that part of the area, at its place there (two bytes a number); where there is none, an empty part at the area's start.
pub fn row(area: &[u16], live: bool, block: usize, number: usize) -> &[u16]
    ensures { (result.now ≡ row_part 16 area.now live block number)
        × (result.ref_ptr.0 ≡ area.entry.ref_ptr.0) × (result.ref_ptr.1 ≡ area.entry.ref_ptr.1 + row_start 16 area.now live block number * 2) }
{
    row_in(area, 16, live, block, number)
}
