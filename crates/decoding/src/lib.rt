// Pairs of digits decoded into lent bytes or into an array, or summed. Reading a framed line calls this; it has tested the lengths. The
// loops go by places, as what is known of a pair does: over chunks and bytes together each turn would speak of what both iterators have
// left.
#![tactic(auto)]

ghost use Rattle.std.specs.Prelude.{◌≡◌, true, ◌+◌, ◌*◌, ◌/◌, ◌%◌, ◌≤◌, ◌&&◌, cond, length, take, Some, None};
ghost use Rattle.seq.specs.Lists.{all_of};
ghost use Rattle.hex_digits.specs.Hex.{is_digit, digit_value, bytes_of, sum8};

use hex_digits::char_value;

// The byte of a pair of digits.
fn pair_value(high: u8, low: u8) -> Option<u8>
    ensures { let digits = is_digit high && is_digit low in
        result ≡ cond digits (Some (16 * digit_value high + digit_value low)) None }
{
    let high_value = char_value(high);
    let low_value = char_value(low);
    if high_value < 16 && low_value < 16 {
        Some(16 * high_value + low_value)
    } else {
        None
    }
}

/// Writes the bytes that pairs of digits stand for, up to the first pair that is not two digits; says whether all are.
pub fn decode(digits: &[u8], bytes: &mut [u8]) -> bool
    requires { (length digits.now ≤ 2 * length bytes.old) × (length digits.now % 2 ≡ 0) }
    ensures hex { result ≡ all_of is_digit digits.now }
    ensures bytes { let characters = digits.now in
        (result ≡ true → take (length characters / 2) bytes.new ≡ bytes_of characters) }
{
    let n = digits.len() / 2;
    for i in 0..n {
        match pair_value(digits[2 * i], digits[2 * i + 1]) {
            Some(byte) => bytes[i] = byte,
            None => return false,
        }
    }
    true
}

/// The bytes that pairs of digits stand for, where all are digits.
pub fn decode_array<const N: usize>(digits: &[u8]) -> Option<[u8; N]>
    requires { length digits.now ≡ 2 * N }
    ensures { let characters = digits.now in
        result ≡ cond (all_of is_digit characters) (Some (bytes_of characters)) None }
{
    let mut bytes = [0; N];
    for i in 0..N {
        bytes[i] = pair_value(digits[2 * i], digits[2 * i + 1])?;
    }
    Some(bytes)
}

/// The sum, wrapping at 256, of the bytes that pairs of digits stand for, where all are digits.
pub fn decoded_sum(digits: &[u8]) -> Option<u8>
    requires { length digits.now % 2 ≡ 0 }
    ensures { let characters = digits.now in
        result ≡ cond (all_of is_digit characters) (Some (sum8 (bytes_of characters))) None }
{
    let mut sum: u8 = 0;
    for i in 0..digits.len() / 2 {
        sum = sum.wrapping_add(pair_value(digits[2 * i], digits[2 * i + 1])?);
    }
    Some(sum)
}
