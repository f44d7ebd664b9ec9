// A row with one more reference done, and whether the next one hits.
ghost use Rattle.std.specs.Prelude.{◌≡◌, ◌/◌, ◌<◌, length, get_or};
ghost use Rattle.cache.specs.References.{numbers};
ghost use Rattle.cache.specs.Cache.{with_reference};
ghost use Rattle.cache.specs.Shape.{shaped, Holds};
ghost use Rattle.points.specs.Points.{hits_next};

use cache::blocks::{CacheShape, MemoryBlock};
use cache::references::number_at;
use cache::row::Row;

// The row after the reference numbered i of a list of bytes, two for each.
pub fn refer_row(references: &[u8], i: usize, shape: CacheShape, row: &mut [u16])
    requires { (i < length references.now / 2) × Holds (length row.old) shape }
    ensures { row.new ≡ with_reference (shaped (length row.old) shape) row.old
        (get_or (numbers references.now) i 0) }
{
    let m = MemoryBlock::new(number_at(references, 2 * i));
    Row::with_reference(row, m.cache_block(shape), m);
}

// Whether the reference numbered d of a list of bytes, two for each, hits in the row, or there is none.
pub fn hits_next(references: &[u8], d: usize, shape: CacheShape, row: &[u16]) -> bool
    requires { Holds (length row.now) shape }
    ensures { result ≡ hits_next (shaped (length row.now) shape) row.now (numbers references.now) d }
{
    if references.len() / 2 <= d {
        return true;
    }
    let m = MemoryBlock::new(number_at(references, 2 * d));
    Row::held(row, m.cache_block(shape)) == m.number()
}
