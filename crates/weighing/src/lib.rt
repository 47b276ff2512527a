// The reason for a marked picture by how far its pass has come at its turn: the row of conditions, for crate `reaching`.
#![tactic(auto)]

ghost use Rattle.std.specs.Prelude.{◌≡◌, true, ◌+◌, ◌≤◌};
ghost use Rattle.def.specs.State.{list_places};
ghost use Rattle.ordering.specs.InNumbers.{key_in};
ghost use Rattle.passes.specs.InNumbers.{ask_in};
ghost use Rattle.reasons.specs.Reasons.{judged};

use ordering::POC_UNIT;
use passes::{Direction, PassRule};
use reasons::Reason;

// The reason for a marked picture, where the list has `cnt` entries at its turn, and by the bound there.
pub fn judge(
    rule: &PassRule,
    both: bool,
    way: Direction,
    cnt: usize,
    bound: u64,
    key: u64,
) -> Reason
    requires { cnt ≤ list_places + list_places }
    ensures { result ≡ judged (ask_in rule.now) both true way cnt bound (key_in key) }
{
    if rule.takes(way, cnt, bound, key) {
        return Reason::Taken(cnt as u8);
    }
    if rule.limit <= cnt {
        return Reason::Full;
    }
    if rule.is_old(key) {
        return Reason::Old;
    }
    if key / POC_UNIT == rule.poc {
        return Reason::SameNumber;
    }
    if !both & rule.is_on_side(Direction::Up, key) {
        return Reason::OtherSide;
    }
    Reason::LayerOverBound
}
