// Bytes and numerals, put from a place on.
ghost use Rattle.std.specs.Prelude.{◌≡◌, ◌+◌, ◌%◌, ◌≤◌, length};
ghost use Rattle.text.specs.Text.{Placed, decimal};

// The bytes are put from at on; answers where they end.
pub fn put_bytes(out: &mut [u8], at: usize, text: &[u8]) -> usize
    requires { at + length text.now ≤ length out.old }
    ensures { Placed out.old at text.now out.new result }
{
    let end = at + text.len();
    out[at..end].copy_from_slice(text);
    end
}

// The last digit of the decimal numeral of x.
fn last_digit(x: u16) -> u8
    ensures { result ≡ 48 + x % 10 }
{
    48 + (x % 10) as u8
}

// The decimal numeral of x is put from at on; answers where it ends.
pub fn put_number(out: &mut [u8], at: usize, x: u16) -> usize
    requires { at + length (decimal x) ≤ length out.old }
    ensures { Placed out.old at (decimal x) out.new result }
{
    let digit = last_digit(x);
    if x < 10 {
        out[at] = digit;
        return at + 1;
    }
    let last = put_number(out, at, x / 10);
    out[last] = digit;
    last + 1
}
