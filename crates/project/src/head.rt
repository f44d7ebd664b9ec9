// The bytes of a file ahead of its contents: checks 2 to 6.
ghost use Rattle.std.specs.Prelude.{◌≡◌, ◌≤◌, ◌<◌, length, take, drop, replicate};
ghost use Rattle.model.specs.Computed.{same_list};
ghost use Rattle.project.specs.File.{mark, edition, reserve, contents_start};
ghost use Rattle.project.specs.Reading.{head_check, head_check_up_to};

use crate::answers::{Check, Refusal};
use cache::numbers::byte_count;

// The four bytes that a file begins with.
pub const MARK: [u8; 4] = *b"CRPD";

// The bytes after byte 7 in edition 2.
pub const RESERVE: [u8; 4] = [0; 4];

// Whether the file begins with the mark.
fn marked(file: &[u8]) -> bool
    ensures { result ≡ same_list (take 4 file.now) mark }
{
    file.starts_with(&MARK)
}

// Where the contents of a file begin, by its edition.
pub fn contents_start(file: &[u8]) -> usize
    requires { 4 < length file.now }
    ensures { (result ≡ contents_start (edition file.now)) × (result < 1028) }
{
    4 + 4 * byte_count(file[4])
}

// Whether the zero bytes after byte 7 are there: four in edition 2, none in edition 1.
fn reserved(file: &[u8]) -> bool
    requires { (8 ≤ length file.now) × (1 ≤ edition file.now) × (edition file.now ≤ 2) }
    ensures { result ≡ same_list (take (reserve (edition file.now)) (drop 8 file.now))
        (replicate (reserve (edition file.now)) 0) }
{
    file[4] == 1 || file[8..].starts_with(&RESERVE)
}

// The first of the checks 2 to 6 that fails, in calls that read the editions up to `last`.
pub fn head_up_to(last: usize, file: &[u8]) -> Result<(), Refusal>
    requires { last ≤ 2 }
    ensures { result ≡ head_check_up_to last file.now }
{
    if file.len() < 8 || 7540 + 4 * last < file.len() {
        return Err(Check::FileLength.into());
    }
    if !marked(file) {
        return Err(Check::WrongMark.into());
    }
    let edition = byte_count(file[4]);
    if edition < 1 || last < edition {
        return Err(Check::WrongEdition.into());
    }
    let n = byte_count(file[5]);
    if n < 1 || 16 * edition < n {
        return Err(Check::CacheBlocks.into());
    }
    let t = file[6];
    if t < 1 || 8 < t || file[7] != 0 || !reserved(file) {
        return Err(Check::TaskCount.into());
    }
    Ok(())
}

// The first of the checks 2 to 6 that fails, in the calls that read edition 1 only.
pub fn head(file: &[u8]) -> Result<(), Refusal>
    ensures { result ≡ head_check file.now }
{
    head_up_to(1, file)
}
