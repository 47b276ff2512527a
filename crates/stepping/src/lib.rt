// One call on a machine by value, for the image that the library lends: the machine is taken apart into the three slices of the running
// machine, the call goes their one road, `running::reply_on`, and the machine is put together again.
#![tactic(auto)]

ghost use Rattle.std.specs.Prelude.{◌≡◌};
ghost use Rattle.machine.specs.Step.{step};

use keys::{ROWS, SLOTS};
use line::Call;
use machine::{Machine, Stepped};
use making::reads_state;
use parting::{put_machine, take_machine};
use registers::{REGISTERS, store};
use running::{reply_on, scalars_at};

// A derivation reads no state, and where that is not whole the arrays cannot say it: it stays as it came, as after a call that is turned down.
pub fn step(m: Machine, call: Call) -> Stepped
    ensures { result ≡ step m call }
{
    let mut keys = [0u64; SLOTS];
    let mut rows = [0u32; ROWS];
    let mut registers = [0u32; REGISTERS];
    let before = take_machine(m, &mut keys, &mut rows);
    let rest = before.rest;
    let poc = before.poc;
    store(&mut registers, rest, poc);
    let reply = reply_on(&mut keys, &mut rows, &mut registers, Some(call));
    if reply.is_refused() {
        return Stepped { reply, machine: m };
    }
    let scalars = scalars_at(&registers);
    if reads_state(call) {
        let machine = put_machine(&keys, &rows, scalars);
        return Stepped { reply, machine };
    }
    let pm = m.pm;
    let refp = m.refp;
    let poc = scalars.poc;
    let machine = Machine { pm, refp, poc };
    Stepped { reply, machine }
}
