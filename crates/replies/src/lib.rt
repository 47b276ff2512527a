// An answer's eight bytes, check byte last, and its line in hex, as an array or written into a buffer. The library hands out the bytes, the
// program the lines.
#![tactic(auto)]

ghost use Rattle.std.specs.Prelude.{◌≡◌, ◌+◌, ◌≤◌, length};
ghost use Rattle.std.proofs.Math.Seq.{paste};
ghost use Rattle.hex_digits.specs.Frame.{with_check};
ghost use Rattle.line.specs.Answers.{reply_bytes, answer_line};

use framing::write_framed;
use line::Reply;
use summing::closing_byte;

// An answer line has sixteen digits and its newline.
const ANSWER_SIZE: usize = 17;

// The body of an answer.
fn reply_bytes(reply: Reply) -> [u8; 7]
    ensures { result ≡ reply_bytes reply }
{
    let [a, b, c, d] = reply.value.to_be_bytes();
    [reply.call, reply.status, reply.buf, a, b, c, d]
}

/// The bytes of an answer, check byte last.
pub fn answer_bytes(reply: Reply) -> [u8; 8]
    ensures { result ≡ with_check (reply_bytes reply) }
{
    let body = reply_bytes(reply);
    let [call, status, buf, a, b, c, d] = body;
    [call, status, buf, a, b, c, d, closing_byte(&body)]
}

/// The line of an answer: its bytes in hex, and the newline.
pub fn answer_line(reply: Reply) -> [u8; ANSWER_SIZE]
    ensures { result ≡ answer_line reply }
{
    let mut line = [0; ANSWER_SIZE];
    write_framed(&mut line, &reply_bytes(reply));
    line
}

/// Writes the line of an answer, and gives the place behind it.
pub fn write_reply(out: &mut [u8], at: usize, reply: Reply) -> usize
    requires { at + ANSWER_SIZE ≤ length out.old }
    ensures line { out.new ≡ paste out.old at (answer_line reply) ANSWER_SIZE }
    ensures next { result ≡ at + ANSWER_SIZE }
{
    let next = at + ANSWER_SIZE;
    out[at..next].copy_from_slice(&answer_line(reply));
    next
}
