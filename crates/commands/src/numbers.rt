// The numbers among the words of a line.

ghost use Rattle.std.specs.Prelude.{◌≡◌, ◌≢◌, MatchOption, slice_index};
ghost use Rattle.commands.specs.Numbers.{number_to, signed_number, IsNoNumber};

use std::str::from_utf8;

// The word as text, for `parse`, which takes a plus in front.
fn text_of(word: &[u8]) -> Option<&str>
    ensures { MatchOption result (IsNoNumber word.now)
        (λ text. (text.now ≡ word.now) × (slice_index word.now 0 ≢ 43)) }
{
    if word.starts_with(b"+") {
        return None;
    }
    from_utf8(word).ok()
}

// A number of one byte. One line for each type: one for all would bring the type's highest number into the clause.
pub fn byte_of(word: &[u8]) -> Option<u8>
    ensures { result ≡ number_to 255 word.now }
{
    text_of(word)?.parse::<u8>().ok()
}

// A number of four bytes.
pub fn number_of(word: &[u8]) -> Option<u32>
    ensures { result ≡ number_to 4294967295 word.now }
{
    text_of(word)?.parse::<u32>().ok()
}

// A number of four bytes with a sign or without, in two's complement.
pub fn signed_of(word: &[u8]) -> Option<u32>
    ensures { result ≡ signed_number word.now }
{
    let n = text_of(word)?.parse::<i32>().ok()?;
    Some(n.cast_unsigned())
}
