// Numbers of four bytes, the highest first, read from bytes that the caller lends and written into them; the bytes before and behind stay.
// The callers have tested the lengths. specs/ says what flags and picture number records are in bytes, too.
// `Stored bs at ys n after` says: after is bs with ys, n bytes, stored from place at on.
#![tactic(auto)]

ghost use Rattle.std.specs.Prelude.{◌≡◌, ◌+◌, ◌≤◌, length};
ghost use Rattle.seq.specs.Lists.{Stored};
ghost use Rattle.def.specs.Word.{word_bytes};
ghost use Rattle.words.specs.Words.{word_width, word_at};

#[tactic(auto, unfolding(crate::specs::Words::word_at))]
pub fn read_word(image: &[u8], at: usize) -> u32
    requires { at + word_width ≤ length image.now }
    ensures { result ≡ word_at image.now at }
{
    u32::from_be_bytes([image[at], image[at + 1], image[at + 2], image[at + 3]])
}

pub fn write_word(image: &mut [u8], at: usize, n: u32)
    requires { at + word_width ≤ length image.old }
    ensures { Stored image.old at (word_bytes n) word_width image.new }
{
    image[at..at + 4].copy_from_slice(&n.to_be_bytes());
}
