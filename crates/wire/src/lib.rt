// A call from the bytes of its line, check byte too, not in hex; the answer as bytes.
#![tactic(auto)]

ghost use Rattle.std.specs.Prelude.{◌≡◌, length};
ghost use Rattle.running.specs.Slices.{slices};
ghost use Rattle.wire.specs.Wire.{answer_length, answer_bytes, Wired};

use line::{BAD_LINE, Reply};
use running::reply_on;
use sizing::is_sized;

pub const ANSWER_LENGTH: usize = 8;

pub fn write_answer(answer: &mut [u8], reply: Reply)
    requires { length answer.old ≡ answer_length }
    ensures { answer.new ≡ answer_bytes reply }
{
    answer.copy_from_slice(&replies::answer_bytes(reply));
}

// The status of the answer that is written. With a wrong size 18, and nothing is written, the answer neither. The status is the answer's own byte,
// which also says that no picture comes, so that it is given as it is.
pub fn call_bytes(
    keys: &mut [u64],
    rows: &mut [u32],
    registers: &mut [u32],
    call: &[u8],
    answer: &mut [u8],
) -> u8
    ensures { let before = slices keys.old rows.old registers.old in
        let after = slices keys.new rows.new registers.new in
        Wired result call.now answer.old answer.new before after }
{
    if answer.len() != ANSWER_LENGTH {
        return BAD_LINE;
    }
    if !is_sized(keys, rows, registers) {
        return BAD_LINE;
    }
    let reply = reply_on(keys, rows, registers, parsing::read_call(call));
    write_answer(answer, reply);
    reply.status
}
