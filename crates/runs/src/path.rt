// A path through the blocks of a body, and the references of its blocks, as they stand in the body.
ghost use Rattle.std.specs.Prelude.{◌≡◌, ◌+◌, ◌-◌, ◌<◌, length};
ghost use Rattle.cache.specs.References.{numbers};
ghost use Rattle.body.specs.Decode.{decode, task_of};
ghost use Rattle.runs.specs.Running.{PathIn};
ghost use Rattle.runs.specs.Props.{PathIn-prop};
ghost use Rattle.runs.specs.Parts.{references_at};

use body::references;

// A path through blocks of a body that keeps its layout, and where the body's blocks begin. The body has a lifetime of its own, so that a part of it can
// be handed on from a place where the other two end.
#[derive(Clone, Copy)]
pub struct BodyPath<'a, 'b> {
    pub body: &'a [u8],
    pub starts: &'b [usize],
    pub path: &'b [u16],
    ghost there: { PathIn body.now starts.now path.now } by { PathIn-prop body.now starts.now path.now },
}

impl<'a, 'b> BodyPath<'a, 'b> {
    // The references of the block at the position i, two bytes each, as a part of the body; where in the body it stands is left open.
    pub fn references_on(&self, i: usize) -> &'a [u8]
        requires { i < length self.now.path.now }
        ensures { numbers result.now ≡ references_at (task_of (decode self.now.body.now)) self.now.path.now i }
    {
        references(self.body, self.starts[usize::from(self.path[i])])
    }

    // How many references the block at the position i has.
    pub fn count_on(&self, i: usize) -> usize
        requires { i < length self.now.path.now }
        ensures { result ≡ length (references_at (task_of (decode self.now.body.now)) self.now.path.now i) }
    {
        self.references_on(i).len() / 2
    }
}
