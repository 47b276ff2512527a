// A conversation: what a reader brings is told to a teller, piece by piece, and what the teller gives to a piece is written before the next
// read, so a pipe whose other end waits for each answer is served.
#![tactic(auto)]

pub mod pouring;
pub mod reading;

ghost use Rattle.std.specs.Prelude.{◌≡◌, ◌≤◌, ◌<◌, ℕ, List, [], ◌++◌, length, IfSome, OnOk, OnErr};
ghost use Rattle.std.specs.Io.KnownBytes.{Appends};
ghost use Rattle.conversation.specs.Pouring.{AppendsFront};
ghost use Rattle.conversation.specs.Conversation.{Conversed, Fronts};

use pouring::write_whole;
use reading::read_some;
use std::fmt;
use std::io::{self, Read, Write};

// Who is told an input, piece by piece, and gives texts for the output and for the messages.
pub trait Teller {
    // What one piece of the input makes of it, and what the end of the input does.
    ghost Hears: { Self → List ℕ → Self → Type 0 };

    ghost Ends: { Self → Self → Type 0 };

    // What it gave last.
    ghost output: { Self → List ℕ };

    ghost messages: { Self → List ℕ };

    // All that it gives for what is left of the input, to its end.
    ghost tells: { Self → List ℕ → List ℕ };

    ghost complains: { Self → List ℕ → List ℕ };

    // How many bytes a piece may have, one at least.
    ghost room: { ℕ };

    ghost some_room: { 0 < room };

    fn room() -> usize
        ensures { result ≡ room };

    fn hear(&mut self, piece: &[u8])
        requires { length piece.now ≤ room }
        ensures { Hears self.old piece.now self.new };

    fn end(&mut self)
        ensures { Ends self.old self.new };

    fn output(&self) -> &[u8]
        ensures { result.now ≡ output self.now };

    fn messages(&self) -> &[u8]
        ensures { result.now ≡ messages self.now };

    // However the input is cut into pieces, it gives the same for the whole.
    ghost hears_on: { (s t : Self) (piece rest : List ℕ) → Hears s piece t
        → (tells s (piece ++ rest) ≡ output t ++ tells t rest) × (complains s (piece ++ rest) ≡ messages t ++ complains t rest) };

    ghost ends_so: { (s t : Self) → Ends s t → (tells s [] ≡ output t) × (complains s [] ≡ messages t) };
}

// Why a conversation stopped before all was told and written.
#[derive(Clone, Copy)]
pub enum Stop {
    Read(io::Error),
    Write(io::Error),
    // The input has ended, and what its end gave could not be written.
    LastWrite(io::Error),
    // No run reads so often.
    UsedUp,
}

impl fmt::Display for Stop {
    fn fmt<W: fmt::Write>(&self, f: &mut fmt::Formatter<W>) -> fmt::Result {
        match self {
            Stop::Read(e) => write!(f, "read: {e}"),
            Stop::Write(e) | Stop::LastWrite(e) => write!(f, "write: {e}"),
            Stop::UsedUp => write!(f, "read: no more turns"),
        }
    }
}

// What the teller gave last, the messages first. A message that can't be written is lost.
fn deliver<T: Teller, W: Write, E: Write>(
    teller: &T,
    output: &mut W,
    errors: &mut E,
) -> io::Result<()>
    ensures ok { OnOk result (Appends (W.contents output.old) (W.contents output.new) (T.output teller.now)) }
    ensures err { OnErr result (AppendsFront (W.contents output.old) (W.contents output.new) (T.output teller.now)) }
    ensures messages { AppendsFront (E.contents errors.old) (E.contents errors.new) (T.messages teller.now) }
{
    let _ = write_whole(errors, teller.messages());
    write_whole(output, teller.output())
}

// Reads to the end of the input, and writes what the teller gives to each piece before the next read; `piece` is room for what one read
// brings, used as far as the teller may hear it at once; with no room, the first read is taken for the end. A read or a write that fails
// ends it: answers behind a lost one would be taken for others. A proved loop has to end, and nothing says that an input does, so the
// turns are counted, up to a number that no run uses up.
pub fn converse<T: Teller, R: Read, W: Write, E: Write>(
    teller: &mut T,
    piece: &mut [u8],
    input: &mut R,
    output: &mut W,
    errors: &mut E,
) -> Result<(), Stop>
    ensures conversed { Conversed T.Hears T.Ends T.output T.messages (length piece.old) (R.remaining input.old) (R.remaining input.new)
        (W.contents output.old) (W.contents output.new) (E.contents errors.old) (E.contents errors.new) teller.old result teller.new }
    ensures all { 0 < length piece.old → OnOk result (IfSome (R.remaining input.old) (λ bytes.
        Appends (W.contents output.old) (W.contents output.new) (T.tells teller.old bytes)
        × Fronts (E.contents errors.old) (E.contents errors.new) (T.complains teller.old bytes))) }
    ensures beginning { 0 < length piece.old → IfSome (R.remaining input.old) (λ bytes.
        AppendsFront (W.contents output.old) (W.contents output.new) (T.tells teller.old bytes)) }
{
    let most = T::room().min(piece.len());
    let piece = &mut piece[..most];
    for _turn in 0..=u64::MAX {
        let heard = read_some(input, piece);
        let n = heard.map_err(Stop::Read)?;
        let ended = n == 0;
        if ended {
            teller.end();
            return deliver(teller, output, errors).map_err(Stop::LastWrite);
        }
        teller.hear(&piece[..n]);
        let wrote = deliver(teller, output, errors).map_err(Stop::Write);
        if wrote.is_err() {
            return wrote;
        }
    }
    Err(Stop::UsedUp)
}
