// Put: marking, then the leased picture goes into the store. Marking goes into keys of its own, so that a put that is turned down after it finds
// the keys as they were; they are made only where the put marks.
ghost use Rattle.std.specs.Prelude.{◌≡◌, true, List, ℕ, length, Ok};
ghost use Rattle.def.specs.declared.Answer.{Answer};
ghost use Rattle.def.specs.State.{slots};
ghost use Rattle.keys.specs.Keys.{rows_length, lists_in, stands, Sized, Comes};
ghost use Rattle.whole.specs.Whole.{whole};
ghost use Rattle.picman.specs.Put.{put_whole};
ghost use Rattle.picman.specs.Results.{put_answer};
ghost use Rattle.picman.specs.OnKeys.{marks_anew, only_marked, Remarked, Calls};

use crate::Shown;
use crate::place::{place_marked, place_unmarked};
use def::{MAX_POC, PutCall, Refusal};
use keys::key::is_present;
use keys::{Rest, SLOTS};
use marking::limit::pic_marking_no_rpl;
use marking::picman_flush_pb;

// Whether the put marks: it flushes, or its picture is of layer 0.
fn marks_anew(call: PutCall) -> bool
    ensures { result ≡ marks_anew call }
{
    call.is_idr | (call.temporal_id == 0)
}

// IDR flushes, otherwise layer 0 marks. Gives how many are marked then.
fn remark(keys: &[u64], next: &mut [u64; SLOTS], call: PutCall) -> u8
    requires { (length keys.now ≡ slots) × (marks_anew call ≡ true) }
    ensures { Remarked call keys.now next.new result }
{
    if call.is_idr {
        picman_flush_pb(keys, next);
        return 0;
    }
    pic_marking_no_rpl(keys, call.ref_pic_gap_length, next)
}

// A put of no picture only marks, and the lease stays.
fn put_nothing(keys: &mut [u64], rest: &mut Rest, call: PutCall)
    requires { length keys.old ≡ slots }
    ensures { (rows : List ℕ) → length rows ≡ rows_length
        → let wanted = only_marked call (stands keys.old rows rest.old) in
        Comes (Ok Answer.Done) keys.new rows rest.new (lists_in rows) wanted }
{
    if !marks_anew(call) {
        return;
    }
    let mut next = [0; SLOTS];
    rest.cur_num_ref_pics = remark(keys, &mut next, call);
    keys.copy_from_slice(&next);
}

// On a whole state.
pub fn put(
    keys: &mut [u64],
    rows: &mut [u32],
    rest: &mut Rest,
    call: PutCall,
) -> Result<Option<Shown>, Refusal>
    requires { Sized keys.old rows.old × (whole (stands keys.old rows.old rest.old) ≡ true) }
    ensures { let before = stands keys.old rows.old rest.old in
        let wanted = put_whole before (lists_in rows.old) call in
        Calls (put_answer result) keys.old rows.old rest.old keys.new rows.new rest.new wanted }
{
    if !call.has_pic {
        put_nothing(keys, rest, call);
        return Ok(None);
    }
    if MAX_POC < call.poc {
        return Err(Refusal::NumberTooHigh);
    }
    if !is_present(rest.lease) {
        return Err(Refusal::NoLease);
    }
    if !marks_anew(call) {
        return Ok(Some(place_unmarked(keys, rows, rest, call)?));
    }
    let mut next = [0; SLOTS];
    let count = remark(keys, &mut next, call);
    Ok(Some(place_marked(keys, rows, &next, rest, count, call)?))
}
