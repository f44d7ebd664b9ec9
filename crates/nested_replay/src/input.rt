// What the passes over a nested sheet go by.
use cache::blocks::CacheShape;
use task_maps::TaskMap;

// A file, a nested sheet, what was found once for each task of the file, and the file's cache.
#[derive(Clone, Copy)]
pub struct NestedInput<'a> {
    pub file: &'a [u8],
    pub sheet: &'a [u16],
    pub maps: &'a [TaskMap],
    pub shape: CacheShape,
}
