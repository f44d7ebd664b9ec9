// The pieces of a file, each put where it belongs in the out list.
ghost use Rattle.std.specs.Prelude.{◌≡◌, [], ◌∷◌, ◌++◌, ◌+◌, ◌*◌, ◌≤◌, ◌<◌, length, drop, replicate};
ghost use Rattle.std.proofs.lemmas.List.Edits.{sets};
ghost use Rattle.body.specs.Layout.{two_bytes};
ghost use Rattle.project.specs.File.{reserve, file_in};
ghost use Rattle.project.specs.Writing.{total, cut, file_length};
ghost use Rattle.writer.specs.Pieces.{entries};

use cache::numbers::byte_count;
use project::head::{MARK, RESERVE};

// The bytes are put in their order from at on.
fn put_bytes(out: &mut [u8], at: usize, piece: &[u8])
    requires { at + length piece.now ≤ length out.old }
    ensures { out.new ≡ sets out.old at piece.now }
{
    out[at..at + piece.len()].copy_from_slice(piece);
}

// The offset and the length of a body are put at at, each as two bytes, low byte first.
fn put_entry(out: &mut [u8], at: usize, offset: usize, size: usize)
    requires { (at + 4 ≤ length out.old) × (offset < 65536) × (size < 65536) }
    ensures { out.new ≡ sets out.old at (two_bytes (offset ∷ size ∷ [])) }
{
    let entry = [
        (offset % 256) as u8,
        (offset / 256) as u8,
        (size % 256) as u8,
        (size / 256) as u8,
    ];
    put_bytes(out, at, &entry);
}

// The zero bytes after byte 7 are put: four in edition 2, none in edition 1.
fn put_reserve(out: &mut [u8], edition: u8)
    requires { (1 ≤ edition) × (edition ≤ 2) × (12 ≤ length out.old) }
    ensures { out.new ≡ sets out.old 8 (replicate (reserve edition) 0) }
{
    if edition == 2 {
        put_bytes(out, 8, &RESERVE);
    }
}

// The contents are put from start on.
fn put_contents(out: &mut [u8], start: usize, lengths: &[usize])
    requires { (start + 4 * length lengths.now ≤ length out.old) × (start + 4 * length lengths.now + total lengths.now < 65536) }
    ensures { out.new ≡ sets out.old start (entries (start + 4 * length lengths.now) lengths.now) }
{
    let mut offset = start + 4 * lengths.len();
    for j in 0..lengths.len() {
        let size = lengths[j];
        put_entry(out, start + 4 * j, offset, size);
        offset += size;
    }
}

// The file of n and the joined bodies in an edition is put to the front of out.
pub fn put_file(edition: u8, n: u8, bodies: &[u8], lengths: &[usize], out: &mut [u8])
    requires { (1 ≤ edition) × (edition ≤ 2) × (1 ≤ length lengths.now) × (length lengths.now ≤ 8) × (total lengths.now ≡ length bodies.now)
        × (file_length edition bodies.now lengths.now < 65536) × (file_length edition bodies.now lengths.now ≤ length out.old) }
    ensures { out.new ≡ file_in edition n (cut bodies.now lengths.now)
        ++ drop (file_length edition bodies.now lengths.now) out.old }
{
    let t = lengths.len();
    let start = 4 + 4 * byte_count(edition);
    let head = [edition, n, t as u8, 0];
    put_bytes(out, 0, &MARK);
    put_bytes(out, 4, &head);
    put_reserve(out, edition);
    put_contents(out, start, lengths);
    put_bytes(out, start + 4 * t, bodies);
}
