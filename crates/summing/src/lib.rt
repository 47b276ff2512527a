// The sum of bytes, wrapping at 256, whether it is zero, and the byte that makes it so. Lines are tested and closed by this.
#![tactic(auto)]

ghost use Rattle.std.specs.Prelude.{◌≡◌, ◌-◌, ◌%◌};
ghost use Rattle.hex_digits.specs.Hex.{sum8, check_byte};
ghost use Rattle.hex_digits.specs.Frame.{is_checked};

/// The sum of bytes, wrapping at 256.
pub fn sum8(bytes: &[u8]) -> u8
    ensures { result ≡ sum8 bytes.now }
{
    bytes
        .iter()
        .fold(0, |sum: u8, &byte| sum.wrapping_add(byte))
}

/// Whether bytes end with a check byte: at least that one, and a sum of zero.
pub fn is_checked(bytes: &[u8]) -> bool
    ensures { result ≡ is_checked bytes.now }
{
    !bytes.is_empty() && sum8(bytes) == 0
}

/// The check byte of bytes with this sum: it brings the sum to zero.
pub fn check_byte(sum: u8) -> u8
    ensures { result ≡ (256 - sum) % 256 }
{
    sum.wrapping_neg()
}

/// The check byte of a body, which closes it.
pub fn closing_byte(body: &[u8]) -> u8
    ensures { result ≡ check_byte body.now }
{
    check_byte(sum8(body))
}
