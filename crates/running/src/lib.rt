// The running machine on three slices that a caller owns, keys, rows and registers, for callers that cannot promise anything: any bits may
// stand in them and every call ends. A wrong size is answered as a bad line is, with 18, a state that is not whole with 7, and a line that is
// turned down leaves every number as it was. The static library's calls take the one road of `reply_on`, all but the
// derivation by numbers (crate `recording`).
#![tactic(auto)]

ghost use Rattle.std.specs.Prelude.{◌≡◌, length};
ghost use Rattle.keys.specs.Keys.{Sized};
ghost use Rattle.registers.specs.Registers.{registers_length};
ghost use Rattle.running.specs.Slices.{slices, scalars_at, reply_to, CallLeaves, Leaves};

use checking::checked_call;
use line::{Call, Reply, bad_line_reply};
use machine::Scalars;
use sizing::is_sized;

// The scalars that the registers are read as.
pub fn scalars_at(registers: &[u32]) -> Scalars
    requires { length registers.now ≡ registers_length }
    ensures { result ≡ scalars_at registers.now }
{
    let rest = registers::rest_of(registers);
    let poc = registers::poc_of(registers);
    Scalars { rest, poc }
}

// A call that is turned down leaves the registers unwritten: what they are read as stays anyway, and so do their bits.
fn call_on(keys: &mut [u64], rows: &mut [u32], registers: &mut [u32], call: Call) -> Reply
    requires { Sized keys.old rows.old × (length registers.old ≡ registers_length) }
    ensures { let before = slices keys.old rows.old registers.old in
        let after = slices keys.new rows.new registers.new in
        CallLeaves result call before after }
{
    let mut scalars = scalars_at(registers);
    let reply = checked_call(keys, rows, &mut scalars, call);
    if reply.is_refused() {
        return reply;
    }
    registers::store(registers, scalars.rest, scalars.poc);
    reply
}

// Any line on any slices.
pub fn reply_on(
    keys: &mut [u64],
    rows: &mut [u32],
    registers: &mut [u32],
    line: Option<Call>,
) -> Reply
    ensures { let before = slices keys.old rows.old registers.old in
        let after = slices keys.new rows.new registers.new in
        (result ≡ reply_to before line) × Leaves line before after }
{
    if !is_sized(keys, rows, registers) {
        return bad_line_reply();
    }
    match line {
        Some(call) => call_on(keys, rows, registers, call),
        None => bad_line_reply(),
    }
}
