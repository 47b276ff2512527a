// One read from a reader, repeated where a signal interrupts it.
ghost use Rattle.std.specs.Prelude.{IsTrue, ◌↔◌};
ghost use Rattle.std.specs.Io.{ReadsAtMost};
ghost use Rattle.std.specs.Io.KnownBytes.{ReadConsumes};
ghost use Rattle.conversation.specs.Reading.{IsInterrupted};

use std::io::{self, ErrorKind, Read};

// A function of its own, whose contract says what is repeated.
fn interrupted(answer: &io::Result<usize>) -> bool
    ensures { IsTrue result ↔ IsInterrupted answer.now }
{
    match answer {
        Ok(_) => false,
        Err(e) => e.kind() == ErrorKind::Interrupted,
    }
}

// A read that a signal interrupts before it brings a byte is repeated, and its answer is never handed on; a proved loop has to end, so
// the reads are counted, up to a number that no run uses up.
pub fn read_some<R: Read>(input: &mut R, piece: &mut [u8]) -> io::Result<usize>
    ensures patient { IsInterrupted result → ⊥ }
    ensures bound { ReadsAtMost result piece.new }
    ensures bytes { ReadConsumes (R.remaining input.old) (R.remaining input.new) result piece.new }
{
    for _ in 0..u64::MAX {
        let answer = input.read(piece);
        if !interrupted(&answer) {
            return answer;
        }
    }
    Err(io::Error::from(ErrorKind::TimedOut))
}
