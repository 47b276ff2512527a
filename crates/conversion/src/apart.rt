// A state by value taken apart into keys, rows and the rest. Any state may be taken apart: `take_slot` gives a slot that breaks a rule by itself
// a key that no whole state has.
ghost use Rattle.keys.specs.Keys.{lists_in, Sized};
ghost use Rattle.conversion.specs.Apart.{TakenSlots, TakenApart};

use crate::slot::take_slot;
use def::{EvcPm, Slot};
use keys::{Rest, SLOTS};

fn take_slots(pic: &[Slot; SLOTS], keys: &mut [u64], rows: &mut [u32])
    requires { Sized keys.old rows.old }
    ensures { TakenSlots pic.now keys.new rows.old rows.new }
{
    // By place in the keys: no lemma of std ties what `keys.iter_mut().zip(pic)` writes to places.
    for (i, slot) in pic.iter().enumerate() {
        keys[i] = take_slot(*slot, rows);
    }
}

// The rows of the lists stay.
pub fn take_apart(pm: EvcPm, keys: &mut [u64], rows: &mut [u32]) -> Rest
    requires { Sized keys.old rows.old }
    ensures { TakenApart pm (lists_in rows.old) keys.new rows.new result }
{
    take_slots(&pm.pic, keys, rows);
    let lease = take_slot(pm.pic_lease, rows);
    Rest {
        lease,
        max_pb_size: pm.max_pb_size,
        max_num_ref_pics: pm.max_num_ref_pics,
        cur_pb_size: pm.cur_pb_size,
        cur_num_ref_pics: pm.cur_num_ref_pics,
        num_refp_0: pm.num_refp_0,
        num_refp_1: pm.num_refp_1,
        poc_next_output: pm.poc_next_output,
        poc_increase: pm.poc_increase,
    }
}
