// Writer: the packed file of n and the joined bodies.
#![tactic(auto)]

ghost use Rattle.std.specs.Prelude.{◌≡◌, ◌≤◌};
ghost use Rattle.project.specs.Writing.{writer_check_in, writing_in, out_in, writing_of, out_of};

use crate::ends::ends_of;
use crate::put::put_file;
use cache::numbers::byte_count;
use project::answers::{Check, Refusal};
use reader::tasks::check_tasks;

mod ends;
mod put;

// The first of the checks 5 to 9 and 14 that fails, for a file in an edition.
fn first_failed(
    edition: u8,
    n: u8,
    bodies: &[u8],
    lengths: &[usize],
    out: &[u8],
) -> Result<(), Refusal>
    requires { (1 ≤ edition) × (edition ≤ 2) }
    ensures { result ≡ writer_check_in edition n bodies.now lengths.now out.now }
{
    if n < 1 || 16 * edition < n {
        return Err(Check::CacheBlocks.into());
    }
    let t = lengths.len();
    if t < 1 || 8 < t {
        return Err(Check::TaskCount.into());
    }
    let ends = ends_of(bodies, lengths).ok_or(Check::WrongContents)?;
    check_tasks(bodies, t, ends)?;
    if out.len() < 4 + 4 * byte_count(edition) + 4 * t + bodies.len() {
        return Err(Check::OutLength.into());
    }
    Ok(())
}

// The file of n and the joined bodies in an edition is written to the front of out, if no check fails: the length that is written.
pub fn write_in(
    edition: u8,
    n: u8,
    bodies: &[u8],
    lengths: &[usize],
    out: &mut [u8],
) -> Result<usize, Refusal>
    requires { (1 ≤ edition) × (edition ≤ 2) }
    ensures { (result ≡ writing_in edition n bodies.now lengths.now out.old)
        × (out.new ≡ out_in edition n bodies.now lengths.now out.old) }
{
    first_failed(edition, n, bodies, lengths, out)?;
    put_file(edition, n, bodies, lengths, out);
    Ok(4 + 4 * byte_count(edition) + 4 * lengths.len() + bodies.len())
}

// Writer: the file of n and the joined bodies is written to the front of out, if no check fails.
pub fn write(n: u8, bodies: &[u8], lengths: &[usize], out: &mut [u8]) -> Result<usize, Refusal>
    ensures { (result ≡ writing_of n bodies.now lengths.now out.old)
        × (out.new ≡ out_of n bodies.now lengths.now out.old) }
{
    write_in(1, n, bodies, lengths, out)
}
