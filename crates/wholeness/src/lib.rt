// Whether a state keeps the rules that every call relies on, told from its keys in one pass over any bits. Each entry point asks this first and
// refuses where it does not.
#![tactic(auto)]

ghost use Rattle.std.specs.Prelude.{◌≡◌, List, ℕ, length};
ghost use Rattle.def.specs.State.{slots};
ghost use Rattle.keys.specs.Keys.{stands};
ghost use Rattle.whole.specs.Whole.{whole};

pub mod tally;

use crate::tally::{tally_all, tally_key};
use def::{MAX_PB, MAX_REFS};
use keys::{Rest, SLOTS};

// One more than the highest key of a picture whose number is not too high, and than the highest set of buffer numbers, as bits.
const KEYS_END: u64 = 0x8000_0000_0000;

const BUFFERS_END: u64 = 1 << SLOTS;

// One pass, over any bits, and one mask of all the tests, with no branch between them. The lease counts among the buffer numbers and not among the slots.
pub fn is_whole(keys: &[u64], rest: Rest) -> bool
    requires { length keys.now ≡ slots }
    ensures { (rows : List ℕ) → result ≡ whole (stands keys.now rows rest) }
{
    let slots = tally_all(keys);
    let all = tally_key(slots, rest.lease);
    (rest.max_pb_size <= MAX_PB)
        & (rest.max_num_ref_pics <= MAX_REFS)
        & (rest.num_refp_0 <= MAX_REFS)
        & (rest.num_refp_1 <= MAX_REFS)
        & (rest.cur_pb_size as u64 == slots.occupied)
        & (rest.cur_num_ref_pics as u64 == slots.marked)
        & (all.stray == 0)
        & (all.high < KEYS_END)
        & (all.set < BUFFERS_END)
        & (all.set == all.sum)
}
