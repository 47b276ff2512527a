// Words for people in fixed memory: numbers in decimal behind a text, and texts and numbers put into a lent buffer.
#![tactic(auto)]

ghost use Rattle.std.specs.Prelude.{◌≡◌, ◌+◌, ◌≤◌, ◌++◌, length};
ghost use Rattle.arrayvec.specs.ArrayString.{array_string_len};
ghost use Rattle.phrases.specs.Phrases.{Added, decimal};

use arrayvec::ArrayString;
use itoa::Buffer;

// The words of a part of a line.
pub type Phrase = ArrayString<60>;

// The words of a whole line, newline and all.
pub type Sentence = ArrayString<128>;

// Puts a text into the buffer from a place on, and gives the place behind it.
pub fn add(out: &mut [u8], at: usize, text: &[u8]) -> usize
    requires { at + length text.now ≤ length out.old }
    ensures { Added out.old at text.now result out.new }
{
    let end = at + text.len();
    out[at..end].copy_from_slice(text);
    end
}

// Puts a number in decimal into the buffer from a place on, and gives the place behind it.
pub fn add_number(out: &mut [u8], at: usize, n: u64) -> usize
    requires { at + 20 ≤ length out.old }
    ensures added { Added out.old at (decimal n) result out.new }
    ensures short { result ≤ at + 20 }
{
    add(out, at, Buffer::new().format(n).as_bytes())
}

// Puts a number in decimal behind a text. Not by `write!`: it promises its text only where it gives Ok, and no clause says when it does;
// likewise wherever words are put together.
pub fn push_number<const N: usize>(text: &mut ArrayString<N>, n: u64)
    requires { array_string_len text.old + 20 ≤ N }
    ensures pushed { text.new.bytes ≡ text.old.bytes ++ decimal n }
    ensures short { array_string_len text.new ≤ array_string_len text.old + 20 }
{
    text.push_str(Buffer::new().format(n));
}
