// Signed numbers, and the picture number record, read from bytes that the caller lends and written into them; the bytes before and behind
// stay. The image and the planner have such records; they have tested the lengths.
// `Stored bs at ys n after` says: after is bs with ys, n bytes, stored from place at on.
#![tactic(auto)]

ghost use Rattle.std.specs.Prelude.{◌≡◌, ◌+◌, ◌≤◌, length};
ghost use Rattle.seq.specs.Lists.{Stored};
ghost use Rattle.def.specs.Word.{word_bytes, twos_complement};
ghost use Rattle.words.specs.Words.{word_width, poc_width, poc_bytes, poc_at};

use def::{DocOffset, EvcPoc, PocVal};
use words::{read_word, write_word};

// A signed number, in two's complement.
#[tactic(auto, using(def::proofs::WordLaws::cast_unsigned_is))]
pub fn write_signed(bytes: &mut [u8], at: usize, z: i32)
    requires { at + word_width ≤ length bytes.old }
    ensures { Stored bytes.old at (word_bytes (twos_complement z)) word_width bytes.new }
{
    write_word(bytes, at, z.cast_unsigned());
}

#[tactic(auto, using(def::proofs::WordLaws::cast_signed_is), unfolding(words::specs::Words::poc_at))]
pub fn read_poc_at(bytes: &[u8], at: usize) -> EvcPoc
    requires { at + poc_width ≤ length bytes.now }
    ensures { result ≡ poc_at bytes.now at }
{
    EvcPoc {
        poc_val: PocVal(read_word(bytes, at).cast_signed()),
        prev_poc_val: read_word(bytes, at + 4),
        prev_doc_offset: DocOffset(read_word(bytes, at + 8).cast_signed()),
    }
}

pub fn write_poc_at(bytes: &mut [u8], at: usize, poc: EvcPoc)
    requires { at + poc_width ≤ length bytes.old }
    ensures { Stored bytes.old at (poc_bytes poc) poc_width bytes.new }
{
    let number = poc.poc_val.0;
    let offset = poc.prev_doc_offset.0;
    write_signed(bytes, at, number);
    write_word(bytes, at + 4, poc.prev_poc_val);
    write_signed(bytes, at + 8, offset);
}
