// Hex digits by table: what call lines and answer lines are made of. specs/ says what a line is, its sum and its check byte among it.
// Whatever reads or writes a line rests on this.

#![tactic(auto)]

mod table;

ghost use Rattle.std.specs.Prelude.{◌≡◌, ◌<◌, [], ◌∷◌, slice_index};
ghost use Rattle.hex_digits.specs.Hex.{char_value, digits_of};

use table::{DIGITS, VALUES};

fn value_entry(c: u8) -> u8
    ensures { result ≡ slice_index VALUES c }
{
    VALUES[c as usize]
}

/// The value of a character, 255 where it is no digit. By table, since reading with tests takes twice as long.
pub fn char_value(c: u8) -> u8
    ensures { result ≡ char_value c }
{
    value_entry(c)
}

fn digit_entry(i: usize) -> u8
    requires { i < 512 }
    ensures { result ≡ slice_index DIGITS i }
{
    DIGITS[i]
}

/// The two digits of a byte, the high one first. By table, since writing with tests takes twice as long.
pub fn digit_pair(byte: u8) -> [u8; 2]
    ensures { result ≡ digits_of (byte ∷ []) }
{
    let place = 2 * byte as usize;
    [digit_entry(place), digit_entry(place + 1)]
}
