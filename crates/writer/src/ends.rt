// Check 7 of the writer, and where the bodies end in the joined bodies.
ghost use Rattle.std.specs.Prelude.{◌≡◌, ◌≤◌, length};
ghost use Rattle.writer.specs.Pieces.{cut_ends};

// Where the bodies begin and end, if their lengths sum up to the joined length. No sum passes the joined length.
pub fn ends_of(bodies: &[u8], lengths: &[usize]) -> Option<[usize; 9]>
    requires { length lengths.now ≤ 8 }
    ensures { result ≡ cut_ends bodies.now lengths.now }
{
    let mut sum = 0;
    let mut ends = [0; 9];
    for (j, &length) in lengths.iter().enumerate() {
        if bodies.len() - sum < length {
            return None;
        }
        sum += length;
        ends[j + 1] = sum;
    }
    if sum != bodies.len() {
        return None;
    }
    Some(ends)
}
