// What the entry points share: a state that came is taken apart and tested.
ghost use Rattle.keys.specs.Keys.{lists_in, Sized};
ghost use Rattle.entry.specs.Opening.{Opens};

use conversion::apart::take_apart;
use def::{EvcPm, Refusal};
use keys::Rest;
use wholeness::is_whole;

// The rest of a state beside its keys and rows, where it is whole.
pub fn open_state(pm: EvcPm, keys: &mut [u64], rows: &mut [u32]) -> Result<Rest, Refusal>
    requires { Sized keys.old rows.old }
    ensures { Opens pm (lists_in rows.old) keys.new rows.new result }
{
    let rest = take_apart(pm, keys, rows);
    is_whole(keys, rest)
        .then_some(rest)
        .ok_or(Refusal::StateNotWhole)
}
