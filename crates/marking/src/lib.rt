// Marking: which pictures stay references when a picture of layer 0 comes in, and the flush of an IDR picture. Both go from the keys of the slots
// into `next`, so that a put that is turned down after them finds the keys as they were.
#![tactic(auto)]

ghost use Rattle.std.specs.Prelude.{◌≡◌, map, length};
ghost use Rattle.def.specs.State.{slots};
ghost use Rattle.keys.specs.Keys.{key_unmarked};

pub mod limit;
pub mod sweep;

use keys::SLOTS;
use keys::key::unmarked;

// Every slot is unmarked, and nothing moves.
pub fn picman_flush_pb(keys: &[u64], next: &mut [u64; SLOTS])
    requires { length keys.now ≡ slots }
    ensures { next.new ≡ map key_unmarked keys.now }
{
    for i in 0..SLOTS {
        next[i] = unmarked(keys[i]);
    }
}
