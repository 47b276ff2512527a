// A framed line read and written, whatever its bytes mean: hex pairs, a sum of zero, the check byte last.
// Each `requires` is met by who has tested that there is room.
#![tactic(auto)]

ghost use Rattle.std.specs.Prelude.{◌≡◌, true, ◌+◌, ◌*◌, ◌/◌, ◌≤◌, [], ◌∷◌, length, take};
ghost use Rattle.std.proofs.Math.Seq.{paste};
ghost use Rattle.seq.specs.Lists.{Stored};
ghost use Rattle.hex_digits.specs.Hex.{bytes_of, digits_of};
ghost use Rattle.hex_digits.specs.Frame.{is_framed};
ghost use Rattle.framing.specs.Framing.{bytes_framed, line_size, whole_of};

use decoding::{decode, decode_array, decoded_sum};
use hex_digits::digit_pair;
use summing::{closing_byte, is_checked};

/// Whether characters are a framed line; then its bytes, check byte last, stand at the front of `bytes`.
pub fn read_framed(digits: &[u8], bytes: &mut [u8]) -> bool
    requires { length digits.now ≤ 2 * length bytes.old }
    ensures framed { result ≡ is_framed digits.now }
    ensures bytes { let characters = digits.now in
        (result ≡ true → take (length characters / 2) bytes.new ≡ bytes_of characters) }
{
    if digits.len() % 2 != 0 {
        return false;
    }
    if !decode(digits, bytes) {
        return false;
    }
    let n = digits.len() / 2;
    is_checked(&bytes[..n])
}

/// The `N` bytes of a framed line, check byte last; nothing where the characters are no framed line of that length.
pub fn read_framed_array<const N: usize>(digits: &[u8]) -> Option<[u8; N]>
    ensures { result ≡ bytes_framed N digits.now }
{
    if digits.len() % 2 != 0 || digits.len() / 2 != N {
        return None;
    }
    let bytes = decode_array::<N>(digits)?;
    if is_checked(&bytes) {
        Some(bytes)
    } else {
        None
    }
}

/// Whether characters, however many, are a framed line.
pub fn is_framed(digits: &[u8]) -> bool
    ensures { result ≡ is_framed digits.now }
{
    if digits.len() % 2 != 0 {
        return false;
    }
    match decoded_sum(digits) {
        Some(sum) => !digits.is_empty() && sum == 0,
        None => false,
    }
}

// The two digits of a byte, from a place on.
fn write_byte(target: &mut [u8], at: usize, byte: u8)
    requires { at + 2 ≤ length target.old }
    ensures { Stored target.old at (digits_of (byte ∷ [])) 2 target.new }
{
    let [high, low] = digit_pair(byte);
    target[at] = high;
    target[at + 1] = low;
}

// The digits of bytes, one behind the other. By places, as what is stored in a buffer is told; the buffer may be longer than the digits.
fn write_digits(target: &mut [u8], bytes: &[u8])
    requires { 2 * length bytes.now ≤ length target.old }
    ensures { let all = bytes.now in
        Stored target.old 0 (digits_of all) (2 * length all) target.new }
{
    for (i, &byte) in bytes.iter().enumerate() {
        write_byte(target, 2 * i, byte);
    }
}

/// Writes the line of a body, newline last, at the front of a buffer, and gives the line's length.
pub fn write_framed(target: &mut [u8], body: &[u8]) -> usize
    requires { line_size body.now ≤ length target.old }
    ensures { let b = body.now in
        (result ≡ line_size b) × (target.new ≡ paste target.old 0 (whole_of b) (line_size b)) }
{
    let n = 2 * body.len();
    write_digits(target, body);
    let [high, low] = digit_pair(closing_byte(body));
    target[n] = high;
    target[n + 1] = low;
    target[n + 2] = b'\n';
    n + 3
}
