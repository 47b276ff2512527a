// The answer for one slot, where the list call is accepted and for slice I, on the keys of the running form, for crate `judging`. The reason of a
// marked picture comes from `reason_of`.
#![tactic(auto)]

ghost use Rattle.std.specs.Prelude.{◌≡◌, List, map, ℕ, ◌≤◌, length, get_or};
ghost use Rattle.def.specs.State.{slots, list_places, no_slot, is_present};
ghost use Rattle.keys.specs.Keys.{slot_at};
ghost use Rattle.ordering.specs.Order.{down};
ghost use Rattle.ordering.specs.InNumbers.{keys_in};
ghost use Rattle.reasons.specs.Reasons.{reason_for, of_slot};
ghost use Rattle.reasons.specs.declared.Reason.{Reason};

use def::{RefpCall, Refusal};
use keys::SLOTS;
use keys::key::{is_marked, is_present};
use reaching::reason_of;
use reasons::Reason;

// Whether there is such a slot and it holds a picture.
fn is_held(keys: &[u64], slot: u8) -> bool
    requires { length keys.now ≡ slots }
    ensures { (rows : List ℕ) → result ≡ is_present (get_or (map (slot_at rows) keys.now) slot no_slot) }
{
    let at = slot as usize;
    if SLOTS <= at {
        return false;
    }
    is_present(keys[at])
}

// The answer for a slot where the list call is accepted.
pub fn slot_answer(
    keys: &[u64],
    ordered: &[u64],
    call: RefpCall,
    slot: u8,
) -> Result<Reason, Refusal>
    requires slots_long { length keys.now ≡ slots }
    requires few { length ordered.now ≤ list_places }
    requires in_order { (rows : List ℕ) → keys_in ordered.now ≡ down (map (slot_at rows) keys.now) }
    ensures { (rows : List ℕ)
        → let pics = map (slot_at rows) keys.now in
        result ≡ of_slot pics slot (reason_for call pics slot) }
{
    if !is_held(keys, slot) {
        return Err(Refusal::NoSuchPlace);
    }
    let at = slot as usize;
    let key = keys[at];
    if !is_marked(key) {
        return Ok(Reason::NotMarked);
    }
    Ok(reason_of(ordered, call, key, at))
}

// The answer for slice I.
pub fn no_list(keys: &[u64], slot: u8) -> Result<Reason, Refusal>
    requires { length keys.now ≡ slots }
    ensures { (rows : List ℕ) → result ≡ of_slot (map (slot_at rows) keys.now) slot Reason.NoListAsked }
{
    if is_held(keys, slot) {
        Ok(Reason::NoListAsked)
    } else {
        Err(Refusal::NoSuchPlace)
    }
}
