// The line of each call on the running machine, from plain numbers, for callers that have no bytes: the library answers it as it answers any line.
// The derivation, which goes a road of its own, stands in crate `recording`.
#![tactic(auto)]

ghost use Rattle.std.specs.Prelude.{◌≡◌};
ghost use Rattle.line.specs.declared.Call.TheVariants.{Init, GetEmptyPic, OutPic, RefpInit};
ghost use Rattle.call_lines.specs.PutLine.{put_line};

use line::{Call, HIGHEST_FLAGS};

pub fn init_line(max_pb_size: u8, max_num_ref_pics: u8) -> Call
    ensures { result ≡ Init max_pb_size max_num_ref_pics }
{
    Call::Init {
        max_pb_size,
        max_num_ref_pics,
    }
}

pub fn get_line() -> Call
    ensures { result ≡ GetEmptyPic }
{
    Call::GetEmptyPic
}

// Flags that no call line may have make a bad line.
pub fn put_line(flags: u8, poc: u32, temporal_id: u8, ref_pic_gap_length: u32) -> Option<Call>
    ensures { result ≡ put_line flags poc temporal_id ref_pic_gap_length }
{
    if HIGHEST_FLAGS < flags {
        return None;
    }
    Some(Call::PutPic {
        flags,
        poc,
        temporal_id,
        ref_pic_gap_length,
    })
}

pub fn out_line() -> Call
    ensures { result ≡ OutPic }
{
    Call::OutPic
}

pub fn lists_line(
    slice_type: u8,
    poc: u32,
    layer_id: u8,
    last_intra: u32,
    max_num_ref_pics: u8,
) -> Call
    ensures { result ≡ RefpInit slice_type poc layer_id last_intra max_num_ref_pics }
{
    Call::RefpInit {
        slice_type,
        poc,
        layer_id,
        last_intra,
        max_num_ref_pics,
    }
}
