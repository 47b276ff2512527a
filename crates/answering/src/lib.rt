// Any line on any slices, with the reply as one number, for the callers of the static library.
#![tactic(auto)]

ghost use Rattle.std.specs.Prelude.{◌≡◌};
ghost use Rattle.running.specs.Slices.{slices};
ghost use Rattle.answering.specs.Answered.{answer_word, OnSlices};

use line::{Call, Reply};
use running::reply_on;

// A reply as one number, the form in which C gets it.
pub fn answer_word(reply: Reply) -> u64
    ensures { result ≡ answer_word reply }
{
    u64::from(reply.value) * 0x1_0000_0000 + u64::from(reply.buf) * 256 + u64::from(reply.status)
}

pub fn answer_on(
    keys: &mut [u64],
    rows: &mut [u32],
    registers: &mut [u32],
    line: Option<Call>,
) -> u64
    ensures { let before = slices keys.old rows.old registers.old in
        let after = slices keys.new rows.new registers.new in
        OnSlices result line before after }
{
    answer_word(reply_on(keys, rows, registers, line))
}
