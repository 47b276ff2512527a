// A machine by value as keys, rows and scalars, and put together again. Any machine may be taken apart.
#![tactic(auto)]

ghost use Rattle.std.specs.Prelude.{◌≡◌};
ghost use Rattle.keys.specs.Keys.{Sized};
ghost use Rattle.machine.specs.Running.{machine_in, Runs};
ghost use Rattle.parting.specs.Parts.{TakenMachine};

use conversion::apart::take_apart;
use conversion::together::put_together;
use entries::{put_lists, take_lists};
use machine::{Machine, Scalars};

pub fn take_machine(m: Machine, keys: &mut [u64], rows: &mut [u32]) -> Scalars
    requires { Sized keys.old rows.old }
    ensures { TakenMachine m keys.new rows.new result }
{
    take_lists(&m.refp, rows);
    Scalars {
        rest: take_apart(m.pm, keys, rows),
        poc: m.poc,
    }
}

// A machine whose state is whole.
pub fn put_machine(keys: &[u64], rows: &[u32], s: Scalars) -> Machine
    requires { Runs keys.now rows.now s }
    ensures { result ≡ machine_in keys.now rows.now s }
{
    Machine {
        pm: put_together(keys, rows, s.rest),
        refp: put_lists(rows),
        poc: s.poc,
    }
}
