// How far the passes of a list have come when a picture has its turn, and the reason for the picture there, for crate `one_slot`.
#![tactic(auto)]

ghost use Rattle.std.specs.Prelude.{◌≡◌, true, List, ℕ, ◌<◌, ◌≤◌, length};
ghost use Rattle.def.specs.State.{slots, list_places};
ghost use Rattle.keys.specs.Keys.{slot_at};
ghost use Rattle.ordering.specs.Order.{key_of};
ghost use Rattle.ordering.specs.InNumbers.{key_in, keys_in};
ghost use Rattle.passes.specs.Passes.{walked};
ghost use Rattle.passes.specs.InNumbers.{ask_in};
ghost use Rattle.reasons.specs.Reasons.{turn_of, in_front, begun, judged_at};

use choosing::is_b;
use def::RefpCall;
use ordering::{LAYER_UNIT, order_key};
use passes::{Direction, PassRule, RefList, Walk, list_of, pass};
use reasons::Reason;
use ruling::rule_of;
use weighing::judge;

// In which pass a picture has its turn.
fn turn_of(rule: &PassRule, both: bool, key: u64) -> Direction
    ensures { result ≡ turn_of both rule.now.poc (key_in key) }
{
    if both & rule.is_on_side(Direction::Up, key) {
        Direction::Up
    } else {
        Direction::Down
    }
}

// The list where a pass begins: none downwards, and upwards the one that the pass down left.
fn begun(ordered: &[u64], list: &mut RefList, rule: &PassRule, way: Direction)
    requires { length ordered.now ≤ list_places }
    ensures { keys_in list.new.items ≡ begun (ask_in rule.now) way (keys_in ordered.now) }
{
    match way {
        Direction::Down => list.clear(),
        Direction::Up => list_of(ordered, list, rule, Walk::Down),
    }
}

// The keys that come before that of a slot in a pass; all of them, where it is not among them.
fn in_front(ordered: &[u64], slot: u64, way: Direction) -> &[u64]
    ensures { walked way (keys_in result.now) ≡ in_front slot (walked way (keys_in ordered.now)) }
{
    match way {
        Direction::Down => match ordered.iter().position(|key| *key % LAYER_UNIT == slot) {
            Some(at) => &ordered[..at],
            None => ordered,
        },
        Direction::Up => match ordered.iter().rposition(|key| *key % LAYER_UNIT == slot) {
            Some(at) => &ordered[at + 1..],
            None => ordered,
        },
    }
}

// The reason for the picture of a marked slot, on the ordered keys.
pub fn reason_of(ordered: &[u64], call: RefpCall, key: u64, slot: usize) -> Reason
    requires few { length ordered.now ≤ list_places }
    requires slot_below { slot < slots }
    ensures { (rows : List ℕ) → result ≡ judged_at call true (keys_in ordered.now) (key_of slot (slot_at rows key)) }
{
    let rule = rule_of(call);
    let both = is_b(call.slice_type);
    let wanted = order_key(key, slot);
    let way = turn_of(&rule, both, wanted);
    let mut list = RefList::new();
    begun(ordered, &mut list, &rule, way);
    let front = in_front(ordered, slot as u64, way);
    let bound = pass(front, &mut list, &rule, way);
    judge(&rule, both, way, list.len(), bound, wanted)
}
