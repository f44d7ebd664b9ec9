// A row: for each cache block the memory block that it holds, or nothing.
ghost use Rattle.std.specs.Prelude.{◌≡◌, ◌<◌, length, set};
ghost use Rattle.cache.specs.Cache.{held};
ghost use Rattle.cache.specs.Firsts.{first_of};

use crate::blocks::{CacheBlock, MemoryBlock};

#[derive(Clone, Copy)]
pub struct Row {
    pub cells: [u16; 32],
}

impl Row {
    pub const NOTHING: u16 = 65535;

    pub const EMPTY: Row = Row {
        cells: [Row::NOTHING; 32],
    };

    pub fn cells(self) -> [u16; 32]
        ensures { result ≡ self.cells }
    {
        self.cells
    }

    // Lent cells of a row, with m at the cache block c: the one place where a reference is stored. That m goes there is up to the caller.
    pub fn with_reference(cells: &mut [u16], c: CacheBlock, m: MemoryBlock)
        requires { c.0 < length cells.old }
        ensures { cells.new ≡ set cells.old c.0 m.0 }
    {
        let at = c.index();
        let v = m.number();
        cells[at] = v;
    }

    // What the cache block c of lent cells holds.
    pub fn held(cells: &[u16], c: CacheBlock) -> u16
        requires { c.0 < length cells.now }
        ensures { result ≡ held cells.now c.0 }
    {
        let at = c.index();
        cells[at]
    }

    // What the cache block c of a row of first references holds after a reference to m: what it held, or m where that was nothing.
    pub fn first_of(cells: &[u16], c: CacheBlock, m: MemoryBlock) -> MemoryBlock
        requires { c.0 < length cells.now }
        ensures { result.0 ≡ first_of (held cells.now c.0) m.0 }
    {
        let old = Row::held(cells, c);
        if old == Row::NOTHING {
            m
        } else {
            MemoryBlock::new(old)
        }
    }
}
