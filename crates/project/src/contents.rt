// The contents of a file: check 7, and where the bodies end.
ghost use Rattle.std.specs.Prelude.{◌≡◌, ◌≤◌, ◌<◌, length};
ghost use Rattle.project.specs.Ends.{ends_of};

use crate::head::contents_start;
use cache::references::number_at;

// Where the first body of a file of t tasks begins and where each body ends, if the contents are as they should be.
pub fn contents(file: &[u8], t: usize) -> Option<[usize; 9]>
    requires { (1 ≤ t) × (t ≤ 8) × (4 < length file.now) }
    ensures { result ≡ ends_of file.now t }
{
    let start = contents_start(file);
    let mut at = start + 4 * t;
    if file.len() < at {
        return None;
    }
    let mut ends = [0; 9];
    ends[0] = at;
    // By index: entry j of the contents is read at its place, and the end of body j is put at j + 1.
    for j in 0..t {
        let entry = start + 4 * j;
        if number_at(file, entry) as usize != at {
            return None;
        }
        at += number_at(file, entry + 2) as usize;
        ends[j + 1] = at;
    }
    if at != file.len() {
        return None;
    }
    Some(ends)
}
