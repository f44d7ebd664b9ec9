// Rows in one list.
ghost use Rattle.std.specs.Prelude.{◌≡◌, [], ◌*◌, ◌<◌, get_or, take, drop};
ghost use Rattle.block_rows.specs.Parts.{RowRoom};

// The first `count` of 32 rows of w numbers, one after the other.
#[derive(Clone, Copy)]
pub struct RowList<'a> {
    pub w: usize,
    pub rows: &'a [u16],
    pub count: usize,
    ghost are: { RowRoom w rows.now count },
}

impl<'a> RowList<'a> {
    ghost use Rattle.block_rows.specs.BlockRows.{listed};

    // The row numbered k.
    pub fn row(&self, k: usize) -> &'a [u16]
        requires { k < self.now.count }
        ensures { (result.now ≡ take self.now.w (drop (self.now.w * k) self.now.rows.now)) × (result.now ≡ get_or (listed self.now) k []) }
    {
        let at = self.w * k;
        &self.rows[at..at + self.w]
    }
}
