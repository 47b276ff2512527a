// All of some bytes written, or a beginning of them where a write fails.
ghost use Rattle.std.specs.Prelude.{OnOk, OnErr};
ghost use Rattle.std.specs.Io.KnownBytes.{Appends};
ghost use Rattle.conversation.specs.Pouring.{AppendsFront, FallsShort};

use std::io::{self, ErrorKind, Write};

// Writes all of the bytes, or fails with a beginning of them written and some left: std's `write_all` does not say what went out where it
// failed. A write that a signal interrupts is repeated; a proved loop has to end, so the writes are counted, up to a number that no run
// uses up.
pub fn write_whole<W: Write>(output: &mut W, bytes: &[u8]) -> io::Result<()>
    ensures ok { OnOk result (Appends (W.contents output.old) (W.contents output.new) bytes.now) }
    ensures err { OnErr result (AppendsFront (W.contents output.old) (W.contents output.new) bytes.now) }
    ensures left { OnErr result (FallsShort (W.contents output.old) (W.contents output.new) bytes.now) }
{
    let mut at = 0;
    for _ in 0..u64::MAX {
        if bytes.len() <= at {
            return Ok(());
        }
        match output.write(&bytes[at..]) {
            Ok(0) => return Err(io::Error::from(ErrorKind::WriteZero)),
            Ok(n) => at += n,
            Err(e) => {
                if e.kind() != ErrorKind::Interrupted {
                    return Err(e);
                }
            }
        }
    }
    if bytes.len() <= at {
        return Ok(());
    }
    Err(io::Error::from(ErrorKind::TimedOut))
}
