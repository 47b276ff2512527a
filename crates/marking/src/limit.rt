// Marking's sliding limit: of too many marked slots the first are unmarked and noted, and sent behind all the others. With it, marking whole.
ghost use Rattle.std.specs.Prelude.{◌≡◌, length};
ghost use Rattle.def.specs.State.{slots};
ghost use Rattle.marking.specs.OnKeys.{Unmarks, Walked, Marks};

use crate::sweep::{pick_outdated, sweep};
use def::MAX_NUM_ACTIVE_REF_FRAME;
use keys::SLOTS;
use keys::key::{is_marked, unmarked};
use store::moves::move_last;
use store::places::count_marked;

// Most slots that stay marked: one less than the sliding limit.
const MOST_MARKED: usize = MAX_NUM_ACTIVE_REF_FRAME - 1;

// The first `n` marked slots are unmarked, and noted.
fn unmark_first(keys: &mut [u64; SLOTS], n: usize, notes: &mut [bool; SLOTS])
    ensures { Unmarks n keys.old keys.new notes.new }
{
    let mut left = n;
    for i in 0..SLOTS {
        let is_first = 0 < left && is_marked(keys[i]);
        notes[i] = is_first;
        if is_first {
            keys[i] = unmarked(keys[i]);
            left -= 1;
        }
    }
}

// At each noted place what stands there now goes to the last slot; the notes stay where they are.
fn last_walk(keys: &mut [u64; SLOTS], notes: &[bool; SLOTS])
    ensures { Walked notes.now keys.old keys.new }
{
    for i in 0..SLOTS {
        let is_noted = notes[i];
        if is_noted {
            move_last(keys, i);
        }
    }
}

// Outdated references are unmarked first; of those left the first are, down to the limit. Gives how many are marked then.
pub fn pic_marking_no_rpl(keys: &[u64], ref_pic_gap_length: u32, next: &mut [u64; SLOTS]) -> u8
    requires { length keys.now ≡ slots }
    ensures { Marks ref_pic_gap_length keys.now next.new result }
{
    let mut flags = [false; SLOTS];
    pick_outdated(keys, ref_pic_gap_length, &mut flags);
    sweep(keys, &flags, next);
    let count = count_marked(next);
    if count <= MOST_MARKED {
        return count as u8;
    }
    unmark_first(next, count - MOST_MARKED, &mut flags);
    last_walk(next, &flags);
    MOST_MARKED as u8
}
