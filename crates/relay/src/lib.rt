// The loop of a program that tells lines: what one read brings is told, and given to be written before the next read, so a pipe answers at once.
// A read that a signal interrupts is repeated. A read or a write that fails is said on standard error, with the system's words, and ends the loop.
#![tactic(auto)]

ghost use Rattle.std.specs.Prelude.{OnOk, IfSome};
ghost use Rattle.std.specs.Io.KnownBytes.{Appends};
ghost use Rattle.conversation.specs.Pouring.{AppendsFront};
ghost use Rattle.conversation.specs.Conversation.{Fronts};
ghost use Rattle.telling.specs.Told.{told_input};
ghost use Rattle.telling.specs.Telling.{gives};
ghost use Rattle.relay.specs.Relayed.{Relayed, RelayedNew};

use conversation::{Stop, converse};
use std::io::{Read, Write};
use telling::{LineTeller, Lines, PIECE};

// Tells every line of an input, from what the teller has kept and its number on; `line` says what it has kept then, and `output` and
// `messages` what was given last.
pub fn relay_on<L: Lines, R: Read, W: Write, E: Write>(
    rt: &impl Eprint,
    teller: &mut LineTeller<L>,
    input: &mut R,
    output: &mut W,
    errors: &mut E,
) -> Result<(), Stop>
    ensures relayed { Relayed L.told (R.remaining input.old) (R.remaining input.new) (W.contents output.old) (W.contents output.new)
        (E.contents errors.old) (E.contents errors.new) teller.old result teller.new }
    ensures all { OnOk result (IfSome (R.remaining input.old) (λ bytes.
        Appends (W.contents output.old) (W.contents output.new) (gives L.told teller.old.speaker bytes).out
        × Fronts (E.contents errors.old) (E.contents errors.new) (gives L.told teller.old.speaker bytes).err)) }
    ensures beginning { IfSome (R.remaining input.old) (λ bytes.
        AppendsFront (W.contents output.old) (W.contents output.new) (gives L.told teller.old.speaker bytes).out) }
{
    let mut piece = [0u8; PIECE];
    let ended = converse(teller, &mut piece, input, output, errors);
    if let Err(stop) = ended {
        let _ = eprintln!(rt; "picman: {stop}");
    }
    ended
}

// Tells every line of an input; the first has number 1.
pub fn relay<L: Lines, R: Read, W: Write, E: Write>(
    rt: &impl Eprint,
    input: &mut R,
    output: &mut W,
    errors: &mut E,
) -> Result<(), Stop>
    ensures relayed { RelayedNew L.told (R.remaining input.old) (R.remaining input.new) (W.contents output.old) (W.contents output.new)
        (E.contents errors.old) (E.contents errors.new) result }
    ensures all { OnOk result (IfSome (R.remaining input.old) (λ bytes.
        Appends (W.contents output.old) (W.contents output.new) (told_input L.told bytes).out
        × Fronts (E.contents errors.old) (E.contents errors.new) (told_input L.told bytes).err)) }
    ensures beginning { IfSome (R.remaining input.old) (λ bytes.
        AppendsFront (W.contents output.old) (W.contents output.new) (told_input L.told bytes).out) }
{
    let mut teller = LineTeller::<L>::new();
    relay_on(rt, &mut teller, input, output, errors)
}
