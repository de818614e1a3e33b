ghost use Rattle.std.specs.Prelude.{◌≡◌, ◌≤◌, ◌+◌, ◌<◌, ◌^◌, length};
ghost use Rattle.text.specs.Buffer.{put};

use itoa::{Buffer, Integer};

/// Puts bytes at a place of the buffer, as far as the buffer goes, and answers the place behind them all. So what writes a line
/// into a buffer also measures it, in an empty one.
pub(crate) fn put(out: &mut [u8], mut at: usize, bytes: &[u8]) -> usize
    requires { at + length bytes.now < 2 ^ 64 }
    ensures put { (result, out.new) ≡ put bytes.now (at, out.old) }
    ensures place { result ≡ at + length bytes.now }
{
    for byte in bytes {
        if at < out.len() {
            out[at] = *byte;
        }
        at += 1;
    }
    at
}

/// Puts a number in decimal digits, behind a minus sign if it is below zero.
pub(crate) fn put_number<I: Integer>(out: &mut [u8], at: usize, number: I) -> usize
    requires { at < 2 ^ 63 }
    ensures put { (result, out.new) ≡ put (I.text number) (at, out.old) }
    ensures place { result ≤ at + 40 }
{
    put(out, at, Buffer::new().format(number).as_bytes())
}
