// What an answer brings, in words: a picture, the counts of the lists, a derived number. Each as a text of its own, and put into a lent buffer,
// where nothing is copied twice.
#![tactic(auto)]

ghost use Rattle.std.specs.Prelude.{◌≡◌, ◌+◌, ◌≤◌, length};
ghost use Rattle.phrases.specs.Phrases.{Added};
ghost use Rattle.showing.specs.Shown.{picture_words, count_words, signed_words};

use itoa::Buffer;
use phrases::{Phrase, add, add_number, push_number};

pub fn picture_words(buf: u8, value: u32) -> Phrase
    ensures { result.bytes ≡ picture_words buf value }
{
    let mut words = Phrase::new();
    words.push_str("buffer ");
    push_number(&mut words, u64::from(buf));
    words.push_str(", number ");
    push_number(&mut words, u64::from(value));
    words
}

pub fn count_words(value: u32) -> Phrase
    ensures { result.bytes ≡ count_words value }
{
    let mut words = Phrase::new();
    push_number(&mut words, u64::from(value / 256));
    words.push_str(" forward, ");
    push_number(&mut words, u64::from(value % 256));
    words.push_str(" backward");
    words
}

// A number in two's complement.
pub fn signed_words(value: u32) -> Phrase
    ensures { result.bytes ≡ signed_words value }
{
    let mut words = Phrase::new();
    words.push_str("number ");
    words.push_str(Buffer::new().format(value.cast_signed()));
    words
}

pub fn add_picture(out: &mut [u8], at: usize, buf: u8, value: u32) -> usize
    requires { at + 60 ≤ length out.old }
    ensures added { Added out.old at (picture_words buf value) result out.new }
    ensures short { result ≤ at + 60 }
{
    let a = add(out, at, b"buffer ");
    let b = add_number(out, a, u64::from(buf));
    let c = add(out, b, b", number ");
    add_number(out, c, u64::from(value))
}

pub fn add_counts(out: &mut [u8], at: usize, value: u32) -> usize
    requires { at + 60 ≤ length out.old }
    ensures added { Added out.old at (count_words value) result out.new }
    ensures short { result ≤ at + 60 }
{
    let a = add_number(out, at, u64::from(value / 256));
    let b = add(out, a, b" forward, ");
    let c = add_number(out, b, u64::from(value % 256));
    add(out, c, b" backward")
}

// A number in two's complement.
pub fn add_signed(out: &mut [u8], at: usize, value: u32) -> usize
    requires { at + 60 ≤ length out.old }
    ensures added { Added out.old at (signed_words value) result out.new }
    ensures short { result ≤ at + 60 }
{
    let a = add(out, at, b"number ");
    add(out, a, Buffer::new().format(value.cast_signed()).as_bytes())
}
