// Why a picture is or is not in the forward list of a slice, on a state that is lent, for crate `image_why`: the state is taken apart, tested and only
// read. Any state may come: one that is not whole is turned down.
#![tactic(auto)]

ghost use Rattle.std.specs.Prelude.{◌≡◌};
ghost use Rattle.reasons.specs.Reasons.{why};

use def::{EvcPm, RefpCall, Refusal};
use entry::opening::open_state;
use judging::why_on;
use keys::{ROWS, SLOTS};
use reasons::Reason;

pub fn evc_picman_why(pm: &EvcPm, call: RefpCall, slot: u8) -> Result<Reason, Refusal>
    ensures { result ≡ why pm.now call slot }
{
    let mut keys = [0; SLOTS];
    let mut rows = [0; ROWS];
    let Ok(_) = open_state(*pm, &mut keys, &mut rows) else {
        return Err(Refusal::StateNotWhole);
    };
    why_on(&keys, call, slot)
}
