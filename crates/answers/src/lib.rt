// Answer lines read back: eight bytes in hex whose sum is 0 modulo 256, whatever they say.
#![tactic(auto)]

ghost use Rattle.std.specs.Prelude.{◌≡◌};
ghost use Rattle.hex_digits.specs.Frame.{from_line};
ghost use Rattle.line.specs.Answers.{answer_kind};

use framing::read_framed_array;
use line::Reply;

/// The characters of an answer line, without its newline; nothing where they are none.
pub fn read_answer(digits: &[u8]) -> Option<Reply>
    ensures { result ≡ from_line answer_kind digits.now }
{
    let [call, status, buf, a, b, c, d, _] = read_framed_array::<8>(digits)?;
    Some(Reply {
        call,
        status,
        buf,
        value: u32::from_be_bytes([a, b, c, d]),
    })
}
