// The rows that a task has for each of its blocks.
ghost use Rattle.std.specs.Prelude.{◌≡◌, ◌<◌};
ghost use Rattle.gather.specs.Memory.{Memory};

use crate::row_list::RowList;

// Rows of w numbers for each block of a task: room for 32 of them for each of 24 blocks. `counts` tells how many a block has.
#[derive(Clone, Copy)]
pub struct Held<'a> {
    pub w: usize,
    pub rows: &'a [u16],
    pub counts: &'a [usize],
    ghost are: { Memory w rows.now counts.now },
}

impl<'a> Held<'a> {
    ghost use Rattle.block_rows.specs.BlockRows.{listed, rows_by};

    // The rows of block b.
    pub fn of_block(&self, b: usize) -> RowList<'a>
        requires { b < 24 }
        ensures { (result.w ≡ self.now.w) × (listed result ≡ rows_by self.now b) }
    {
        let part = 32 * self.w;
        let at = part * b;
        RowList {
            w: self.w,
            rows: &self.rows[at..at + part],
            count: self.counts[b],
        }
    }
}
