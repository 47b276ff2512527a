// Get: the lowest idle picture is taken out of the store and leased, else a new one is made.
ghost use Rattle.std.specs.Prelude.{◌≡◌, true, ◌+◌, ◌-◌, ◌*◌, ◌<◌, ◌≤◌, length, get_or, replicate};
ghost use Rattle.std.proofs.Math.Seq.{paste};
ghost use Rattle.seq.specs.Lists.{remove_at};
ghost use Rattle.def.specs.State.{slots, highest_poc};
ghost use Rattle.keys.specs.Keys.{key_number, row_length, stands, with_lease, Sized};
ghost use Rattle.store.specs.FreeBuffer.{key_free};
ghost use Rattle.whole.specs.Whole.{whole};
ghost use Rattle.picman.specs.Get.{get_whole};
ghost use Rattle.picman.specs.Results.{get_answer};
ghost use Rattle.picman.specs.OnKeys.{shown_as, key_shown, Calls};

use crate::Shown;
use def::Refusal;
use keys::Rest;
use keys::key::{buffer_byte, is_present, number_of};
use keys::row::clear_row;
use store::buffers::free_buffer;
use store::moves::remove_key;
use store::places::lowest_idle;

// The picture at `pos` is taken out of the store and leased, as it is.
fn reuse_pic(keys: &mut [u64], rest: &mut Rest, pos: usize) -> Shown
    requires place { pos < length keys.old }
    requires occupied { 0 < rest.old.cur_pb_size }
    requires fits { key_number (get_or keys.old pos 0) ≤ highest_poc }
    ensures shows { result ≡ key_shown (get_or keys.old pos 0) }
    ensures leased { rest.new ≡ with_lease rest.old (get_or keys.old pos 0) (rest.old.cur_pb_size - 1) }
    ensures left { keys.new ≡ remove_at 0 pos keys.old }
{
    let key = remove_key(keys, pos);
    rest.lease = key;
    rest.cur_pb_size -= 1;
    Shown {
        buffer: buffer_byte(key),
        poc: number_of(key),
    }
}

// A new picture, all zero, is leased under the smallest buffer number that no slot holds.
fn lease_new_pic(keys: &[u64], rows: &mut [u32], rest: &mut Rest) -> Shown
    requires { Sized keys.now rows.old × (key_free keys.now < slots) }
    ensures shows { result ≡ shown_as (key_free keys.now) 0 }
    ensures leased { rest.new ≡ with_lease rest.old (key_free keys.now * 8 + 1) rest.old.cur_pb_size }
    ensures cleared { rows.new ≡ paste rows.old (row_length * key_free keys.now) (replicate row_length 0) row_length }
{
    let buffer = free_buffer(keys);
    clear_row(rows, buffer);
    rest.lease = buffer as u64 * 8 + 1;
    Shown {
        buffer: buffer as u8,
        poc: 0,
    }
}

// On a whole state.
pub fn get(keys: &mut [u64], rows: &mut [u32], rest: &mut Rest) -> Result<Shown, Refusal>
    requires { Sized keys.old rows.old × (whole (stands keys.old rows.old rest.old) ≡ true) }
    ensures { let before = stands keys.old rows.old rest.old in
        let answer = get_answer result in
        Calls answer keys.old rows.old rest.old keys.new rows.new rest.new (get_whole before) }
{
    if is_present(rest.lease) {
        return Err(Refusal::PictureLeased);
    }
    if let Some(pos) = lowest_idle(keys) {
        return Ok(reuse_pic(keys, rest, pos));
    }
    if rest.max_pb_size <= rest.cur_pb_size {
        return Err(Refusal::StoreFull);
    }
    Ok(lease_new_pic(keys, rows, rest))
}
