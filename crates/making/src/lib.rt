// One call on the running machine, by a match on the call: the one road of the program's run, the static library and the calls on an image, but for
// the library's derivation by numbers (crate `recording`).
// It works on a state known to be whole, where the call reads it.
#![tactic(auto)]

ghost use Rattle.std.specs.Prelude.{◌≡◌};
ghost use Rattle.machine.specs.Running.{reads_state, CallRoom, MakesCall};

use calls::{get_call, init_call, out_call, poc_call, put_call, refp_call};
use line::{Call, Reply};
use machine::Scalars;
use machine::fields::{put_call_of, refp_call_of};

// Every call but the derivation reads the state.
pub fn reads_state(call: Call) -> bool
    ensures { result ≡ reads_state call }
{
    !matches!(call, Call::PocDerivation { .. })
}

// A call, where it reads the state, on one that is whole.
pub fn make_call(keys: &mut [u64], rows: &mut [u32], s: &mut Scalars, call: Call) -> Reply
    requires { CallRoom keys.old rows.old s.old call }
    ensures { MakesCall result s.new s.old keys.old rows.old keys.new rows.new call }
{
    match call {
        Call::Init {
            max_pb_size,
            max_num_ref_pics,
        } => init_call(keys, rows, s, max_pb_size, max_num_ref_pics),
        Call::GetEmptyPic => get_call(keys, rows, s),
        Call::PutPic {
            flags,
            poc,
            temporal_id,
            ref_pic_gap_length,
        } => put_call(
            keys,
            rows,
            s,
            put_call_of(flags, poc, temporal_id, ref_pic_gap_length),
        ),
        Call::OutPic => out_call(keys, rows, s),
        Call::RefpInit {
            slice_type,
            poc,
            layer_id,
            last_intra,
            max_num_ref_pics,
        } => refp_call(
            keys,
            rows,
            s,
            refp_call_of(slice_type, poc, layer_id, last_intra, max_num_ref_pics),
        ),
        Call::PocDerivation {
            log2_sub_gop_length,
            tid,
        } => poc_call(s, log2_sub_gop_length, tid),
    }
}
