// Numbers as wider ones, with their bounds, so that sums and products of them are seen to fit.
ghost use Rattle.std.specs.Prelude.{◌≡◌, ◌<◌};

// A two-byte number as a count.
pub fn count(x: u16) -> usize
    ensures { (result ≡ x) × (result < 65536) }
{
    x as usize
}

// A byte as a count.
pub fn byte_count(x: u8) -> usize
    ensures { (result ≡ x) × (result < 256) }
{
    x as usize
}

// A byte as a number of two bytes.
pub fn byte_number(x: u8) -> u16
    ensures { (result ≡ x) × (result < 256) }
{
    x as u16
}

// A byte as a number of four bytes.
pub fn byte_word(x: u8) -> u32
    ensures { (result ≡ x) × (result < 256) }
{
    x as u32
}
