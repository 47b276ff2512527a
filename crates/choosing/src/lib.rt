// Which marked pictures the reference lists of a slice hold, and why a list call takes none. Nothing of the state or of the lists is written
// here; the list call of crate `filling` is built on it.
#![tactic(auto)]

ghost use Rattle.std.specs.Prelude.{◌≡◌, List, [], map, ℕ, length};
ghost use Rattle.def.specs.State.{slots};
ghost use Rattle.keys.specs.Keys.{slot_at};
ghost use Rattle.ordering.specs.Order.{down};
ghost use Rattle.ordering.specs.InNumbers.{keys_in};
ghost use Rattle.choosing.specs.Choice.{is_b, forward_walk, choice};
ghost use Rattle.choosing.specs.Chosen.{chosen_in};

use arrayvec::ArrayVec;
use def::{MAX_NUM_REF_PICS, RefpCall, Refusal, SliceType};
use ordering::picman_update_pic_ref;
use passes::{RefList, Walk, list_of};
use ruling::rule_of;

// The reference lists of a slice.
#[derive(Drop)]
pub struct Lists {
    pub forward: RefList,
    pub backward: RefList,
}

impl Lists {
    pub fn new() -> Self
        ensures { (result.forward.items ≡ []) × (result.backward.items ≡ []) }
    {
        Lists {
            forward: RefList::new(),
            backward: RefList::new(),
        }
    }
}

pub fn is_b(slice_type: SliceType) -> bool
    ensures { result ≡ is_b slice_type }
{
    matches!(slice_type, SliceType::EVC_ST_B)
}

fn forward_walk(slice_type: SliceType) -> Walk
    ensures { result ≡ forward_walk slice_type }
{
    match slice_type {
        SliceType::EVC_ST_B => Walk::DownThenUp,
        _ => Walk::Down,
    }
}

// Decides both lists of a slice other than I on the ordered keys. The lists are lent, since given by value they took 50 ns more a call, and may hold
// anything.
pub fn choose(ordered: &[u64], lists: &mut Lists, call: RefpCall) -> Result<(), Refusal>
    ensures { chosen_in result lists.new ≡ choice call (keys_in ordered.now) }
{
    if MAX_NUM_REF_PICS < ordered.len() {
        return Err(Refusal::TooManyReferences);
    }
    if ordered.is_empty() {
        return Err(Refusal::NoReferences);
    }
    let rule = rule_of(call);
    list_of(
        ordered,
        &mut lists.forward,
        &rule,
        forward_walk(call.slice_type),
    );
    if lists.forward.is_empty() {
        return Err(Refusal::ForwardListEmpty);
    }
    if is_b(call.slice_type) {
        list_of(ordered, &mut lists.backward, &rule, Walk::UpThenDown);
    } else {
        lists.backward.clear();
    }
    Ok(())
}

// Decides both lists of a slice other than I on the slots' keys.
pub fn refp_choose(keys: &[u64], lists: &mut Lists, call: RefpCall) -> Result<(), Refusal>
    requires { length keys.now ≡ slots }
    ensures { (rows : List ℕ)
        → let pics = map (slot_at rows) keys.now in
        chosen_in result lists.new ≡ choice call (down pics) }
{
    let mut ordered = ArrayVec::new();
    picman_update_pic_ref(keys, &mut ordered);
    choose(&ordered, lists, call)
}
