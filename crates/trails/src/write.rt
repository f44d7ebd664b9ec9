// The blocks of a trail, written into a list.
ghost use Rattle.std.specs.Prelude.{◌≡◌, ◌/◌, length};
ghost use Rattle.trails.specs.Trails.{IsPlace, parent_at, length_at, way_back, way_to};

use crate::gather_trails::PLACES;
use cache::numbers::count;

// The place of a row in a list of trails.
#[derive(Clone, Copy)]
pub struct Place<'a> {
    pub trails: &'a [u16],
    pub at: usize,
    ghost is: { IsPlace trails.now at },
}

impl<'a> Place<'a> {
    // How many blocks the trail of the place has.
    pub fn length(&self) -> usize
        ensures { result ≡ length_at self.now.trails.now self.now.at }
    {
        count(self.trails[PLACES + self.at])
    }

    // The block of the place.
    pub fn block(&self) -> u16
        ensures { result ≡ self.now.at / 32 }
    {
        (self.at / 32) as u16
    }

    // As many blocks of the trail as the list is long, in the order of a path to the place. The trail tells them back to front.
    pub fn write_to(&self, out: &mut [u16])
        ensures { out.new ≡ way_to (length out.old) self.now.trails.now self.now.at }
    {
        let long = out.len();
        let mut at = self.at;
        // By index: the list is filled from its end.
        for k in 0..long {
            out[long - 1 - k] = (at / 32) as u16;
            at = count(self.trails[at]);
        }
    }

    // As many blocks of the trail as the list is long, in the order of a way on from the place, without its own block.
    pub fn write_on(&self, out: &mut [u16])
        ensures { out.new ≡ way_back (length out.old) self.now.trails.now (parent_at self.now.trails.now self.now.at) }
    {
        let mut at = self.at;
        for block in out {
            at = count(self.trails[at]);
            *block = (at / 32) as u16;
        }
    }
}
