// The list call on the running form: it is decided on the keys of the marked slots before anything is written, and then its entries are stored in
// place. The entry point of crate `listing` and the running machine test the state first and call this.
#![tactic(auto)]

ghost use Rattle.std.specs.Prelude.{◌≡◌, true};
ghost use Rattle.whole.specs.Whole.{whole};
ghost use Rattle.keys.specs.Keys.{stands, Sized};
ghost use Rattle.refp.specs.Answers.{lists_called};
ghost use Rattle.refp.specs.Running.{ListsCame};

use choosing::{Lists, refp_choose};
use def::{MAX_POC, RefpCall, Refusal};
use keys::{ROW, Rest};
use refp::{Counts, is_i};
use storing::{drop_entries, write_entries};

// The lists of a slice, on a whole state, which every caller has tested or kept.
pub fn refp_init(
    keys: &[u64],
    rows: &mut [u32],
    rest: &mut Rest,
    call: RefpCall,
) -> Result<Counts, Refusal>
    requires sized { Sized keys.now rows.old }
    requires is_whole { whole (stands keys.now rows.old rest.old) ≡ true }
    ensures { ListsCame (lists_called result rest.new) keys.now rows.old rows.new rest.old call }
{
    if MAX_POC < call.poc {
        return Err(Refusal::NumberTooHigh);
    }
    if is_i(call.slice_type) {
        return Ok(Counts {
            forward: rest.num_refp_0,
            backward: rest.num_refp_1,
        });
    }
    let mut lists = Lists::new();
    refp_choose(keys, &mut lists, call)?;
    drop_entries(rows);
    write_entries(keys, rows, &lists.forward, 0);
    write_entries(keys, rows, &lists.backward, ROW);
    let forward = lists.forward.len() as u8;
    let backward = lists.backward.len() as u8;
    rest.num_refp_0 = forward;
    rest.num_refp_1 = backward;
    Ok(Counts { forward, backward })
}
