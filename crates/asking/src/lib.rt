// A line of a command turned into the line of its call, or into a message that says what was expected.
#![tactic(auto)]

ghost use Rattle.std.specs.Prelude.{◌≡◌};
ghost use Rattle.line.specs.Calls.{call_bytes};
ghost use Rattle.line.specs.Claims.{CallFits};
ghost use Rattle.framing.specs.Framing.{whole_of};
ghost use Rattle.asking.specs.Asked.{told_texts, asked};

use arrayvec::ArrayVec;
use commands::{Expected, read_command};
use expecting::complain;
use line::Call;
use phrases::Sentence;
use writer::write_call;

// How long a line may be.
pub const LONGEST: usize = 1023;

// No line of a call is longer, newline and all.
const MOST: usize = 32;

pub type CallLine = ArrayVec<u8, MOST>;

fn call_line(call: Call) -> CallLine
    requires { CallFits call }
    ensures { result.items ≡ whole_of (call_bytes call) }
{
    let mut bytes = [0; MOST];
    let written = write_call(call, &mut bytes);
    let mut line = ArrayVec::from_array_in((), bytes);
    if let Ok(n) = written {
        line.truncate(n);
    }
    line
}

// A line with its number, given without its newline: the line of its call, or nothing where it says nothing, or a message.
#[tactic(auto, unfolding(crate::specs::Asked::asked))]
pub fn ask_line(line: &[u8], number: u64) -> Result<Option<CallLine>, Sentence>
    ensures { told_texts result ≡ asked number line.now }
{
    if LONGEST < line.len() {
        return Err(complain(number, Expected::ShorterLine));
    }
    match read_command(line) {
        Ok(None) => Ok(None),
        Ok(Some(call)) => Ok(Some(call_line(call))),
        Err(want) => Err(complain(number, want)),
    }
}
