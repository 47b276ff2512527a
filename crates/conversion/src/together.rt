// A whole state by value put together from keys, rows and the rest.
ghost use Rattle.std.specs.Prelude.{◌≡◌, true, map, ◌<◌, ◌≤◌, length};
ghost use Rattle.def.specs.State.{slots, highest_poc};
ghost use Rattle.keys.specs.Keys.{key_number, rows_length, slot_with, slot_at, stands, Sized};
ghost use Rattle.whole.specs.Whole.{whole};
ghost use Rattle.conversion.specs.Fitting.{KeysFit};

use def::{EvcPic, EvcPm, Slot};
use keys::key::{buffer_byte, buffer_of, is_present, layer_of, number_of};
use keys::row::read_row;
use keys::{ROW, Rest, SLOTS};
use std::array;

// The slot of a key, with these list numbers.
fn slot_with(key: u64, list_poc: [u32; ROW]) -> Slot
    requires { key_number key ≤ highest_poc }
    ensures { result ≡ slot_with key list_poc }
{
    Slot {
        present: is_present(key),
        buf: buffer_byte(key),
        pic: EvcPic {
            poc: number_of(key),
            is_ref: key / 2 % 2 == 1,
            need_for_out: key / 4 % 2 == 1,
            temporal_id: layer_of(key),
            list_poc,
        },
    }
}

fn slot_of(rows: &[u32], key: u64) -> Slot
    requires { (length rows.now ≡ rows_length) × (key_number key ≤ highest_poc) }
    ensures { result ≡ slot_at rows.now key }
{
    if !is_present(key) {
        return slot_with(key, [0; ROW]);
    }
    slot_with(key, read_row(rows, buffer_of(key)))
}

fn put_slots(keys: &[u64], rows: &[u32]) -> [Slot; SLOTS]
    requires { Sized keys.now rows.now × KeysFit keys.now }
    ensures { result ≡ map (slot_at rows.now) keys.now }
{
    array::from_fn(
        |i|
            requires { Sized keys.now rows.now × KeysFit keys.now × (i < slots) }
        { slot_of(rows, keys[i]) },
    )
}

// A whole state by value.
pub fn put_together(keys: &[u64], rows: &[u32], rest: Rest) -> EvcPm
    requires { Sized keys.now rows.now × (whole (stands keys.now rows.now rest) ≡ true) }
    ensures { result ≡ stands keys.now rows.now rest }
{
    EvcPm {
        pic: put_slots(keys, rows),
        pic_lease: slot_of(rows, rest.lease),
        max_pb_size: rest.max_pb_size,
        max_num_ref_pics: rest.max_num_ref_pics,
        cur_pb_size: rest.cur_pb_size,
        cur_num_ref_pics: rest.cur_num_ref_pics,
        num_refp_0: rest.num_refp_0,
        num_refp_1: rest.num_refp_1,
        poc_next_output: rest.poc_next_output,
        poc_increase: rest.poc_increase,
    }
}
