// Why a picture is or is not in the forward list of a slice, on the keys of the running form. Nothing is changed: the keys are only read, the
// list call's refusals come from `choose`, and the answer for a slot from crate `one_slot`.
#![tactic(auto)]

ghost use Rattle.std.specs.Prelude.{◌≡◌, List, map, ℕ, length};
ghost use Rattle.def.specs.State.{slots};
ghost use Rattle.keys.specs.Keys.{slot_at};
ghost use Rattle.reasons.specs.Reasons.{why_whole};

use arrayvec::ArrayVec;
use choosing::{Lists, choose};
use def::{MAX_POC, RefpCall, Refusal};
use one_slot::{no_list, slot_answer};
use ordering::picman_update_pic_ref;
use reasons::Reason;
use refp::is_i;

// The answer on a whole state, which every caller has tested.
pub fn why_on(keys: &[u64], call: RefpCall, slot: u8) -> Result<Reason, Refusal>
    requires { length keys.now ≡ slots }
    ensures { (rows : List ℕ) → result ≡ why_whole (map (slot_at rows) keys.now) call slot }
{
    if MAX_POC < call.poc {
        return Err(Refusal::NumberTooHigh);
    }
    if is_i(call.slice_type) {
        return no_list(keys, slot);
    }
    let mut ordered = ArrayVec::new();
    picman_update_pic_ref(keys, &mut ordered);
    let mut lists = Lists::new();
    if let Err(why) = choose(&ordered, &mut lists, call) {
        return Err(why);
    }
    slot_answer(keys, &ordered, call, slot)
}
