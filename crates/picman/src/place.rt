// The second part of a put: the leased picture goes into the store. Where it finds no place the keys stay as they were.
ghost use Rattle.std.specs.Prelude.{◌≡◌, true, ◌<◌, length};
ghost use Rattle.keys.specs.Keys.{key_present, lists_in, stands, Sized};
ghost use Rattle.whole.specs.Whole.{whole};
ghost use Rattle.picman.specs.Put.{place};
ghost use Rattle.picman.specs.Results.{get_answer};
ghost use Rattle.picman.specs.OnKeys.{with_refs, key_place, PlaceRoom, Placed, Calls};

use crate::Shown;
use def::{PutCall, Refusal};
use keys::key::{buffer_byte, buffer_of, is_present, key_of};
use keys::row::read_row;
use keys::{NUMBER_ROW, ROW, Rest, SLOTS};
use store::places::highest_empty;

// Where the picture goes: a reference to the place that the count of references names, if it is empty, any other picture to the highest empty slot.
fn place_for(keys: &[u64], count: u8, ref_pic: bool) -> Result<usize, Refusal>
    requires { count < length keys.now }
    ensures { result ≡ key_place ref_pic count keys.now }
{
    if !ref_pic {
        return highest_empty(keys).ok_or(Refusal::SlotTaken);
    }
    let pos = count as usize;
    if is_present(keys[pos]) {
        return Err(Refusal::SlotTaken);
    }
    Ok(pos)
}

// The leased picture goes to slot `pos`, with its number, layer and flags; the first of its list numbers are the forward list's.
fn picman_set_pic_to_pb(
    keys: &mut [u64],
    rows: &mut [u32],
    rest: &mut Rest,
    call: PutCall,
    pos: usize,
) -> Shown
    requires { Sized keys.old rows.old × PlaceRoom keys.old rest.old pos }
    ensures { Placed result keys.old rows.old rest.old call pos keys.new rows.new rest.new }
{
    let lease = rest.lease;
    let buf = buffer_of(lease);
    let numbers = read_row(rows, NUMBER_ROW);
    let listed = rest.num_refp_0 as usize;
    rows[ROW * buf..ROW * buf + listed].copy_from_slice(&numbers[..listed]);
    keys[pos] = key_of(
        call.poc,
        call.temporal_id,
        buf,
        call.need_for_output,
        call.ref_pic,
    );
    rest.lease = 0;
    rest.cur_pb_size += 1;
    rest.cur_num_ref_pics += call.ref_pic as u8;
    Shown {
        buffer: buffer_byte(lease),
        poc: call.poc,
    }
}

// The second part of a put, over any slots marked anew: `next` and `count` are the slots marked anew, and only now do they take the keys' place.
pub fn place_marked(
    keys: &mut [u64],
    rows: &mut [u32],
    next: &[u64; SLOTS],
    rest: &mut Rest,
    count: u8,
    call: PutCall,
) -> Result<Shown, Refusal>
    requires { Sized keys.old rows.old
        × (whole (stands next.now rows.old (with_refs rest.old count)) ≡ true)
        × (key_present rest.old.lease ≡ true) }
    ensures { let before = stands keys.old rows.old rest.old in
        let marked = stands next.now rows.old (with_refs rest.old count) in
        let wanted = place before marked (lists_in rows.old) call in
        Calls (get_answer result) keys.old rows.old rest.old keys.new rows.new rest.new wanted }
{
    let pos = place_for(next, count, call.ref_pic)?;
    keys.copy_from_slice(next);
    rest.cur_num_ref_pics = count;
    Ok(picman_set_pic_to_pb(keys, rows, rest, call, pos))
}

// The same where nothing was marked anew.
pub fn place_unmarked(
    keys: &mut [u64],
    rows: &mut [u32],
    rest: &mut Rest,
    call: PutCall,
) -> Result<Shown, Refusal>
    requires { Sized keys.old rows.old
        × (whole (stands keys.old rows.old rest.old) ≡ true)
        × (key_present rest.old.lease ≡ true) }
    ensures { let before = stands keys.old rows.old rest.old in
        let wanted = place before before (lists_in rows.old) call in
        Calls (get_answer result) keys.old rows.old rest.old keys.new rows.new rest.new wanted }
{
    let pos = place_for(keys, rest.cur_num_ref_pics, call.ref_pic)?;
    Ok(picman_set_pic_to_pb(keys, rows, rest, call, pos))
}
