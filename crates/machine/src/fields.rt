// What the bytes of a call mean, and what a derived number looks like in an answer.
ghost use Rattle.std.specs.Prelude.{◌≡◌, ◌<◌};
ghost use Rattle.machine.specs.Step.{flag, put_call_of, refp_call_of, derived_reply};

use def::{DONE, PocVal, PutCall, RefpCall, Refusal, SliceType};
use line::{POC_DERIVATION, Reply};

// Whether flags have the bit of a weight.
fn flag(flags: u8, weight: u8) -> bool
    requires { 0 < weight }
    ensures { result ≡ flag flags weight }
{
    flags / weight % 2 == 1
}

// A put's flags come as one byte, from a call line and from C: 1 IDR, 2 wanted for output, 4 reference, 8 no picture.
pub fn put_call_of(flags: u8, poc: u32, temporal_id: u8, ref_pic_gap_length: u32) -> PutCall
    ensures { result ≡ put_call_of flags poc temporal_id ref_pic_gap_length }
{
    PutCall {
        has_pic: !flag(flags, 8),
        is_idr: flag(flags, 1),
        need_for_output: flag(flags, 2),
        ref_pic: flag(flags, 4),
        poc,
        temporal_id,
        ref_pic_gap_length,
    }
}

#[tactic(auto, using(def::proofs::WordLaws::cast_signed_is))]
pub fn refp_call_of(
    slice_type: u8,
    poc: u32,
    layer_id: u8,
    last_intra: u32,
    max_num_ref_pics: u8,
) -> RefpCall
    ensures { result ≡ refp_call_of slice_type poc layer_id last_intra max_num_ref_pics }
{
    RefpCall {
        slice_type: SliceType::from(slice_type),
        poc,
        layer_id,
        last_intra: last_intra.cast_signed(),
        max_num_ref_pics,
    }
}

// The fields of the answer to a derivation.
#[tactic(auto, using(def::proofs::WordLaws::cast_unsigned_is))]
pub fn derived_reply(answer: Result<PocVal, Refusal>) -> Reply
    ensures { result ≡ derived_reply 6 answer }
{
    match answer {
        Ok(number) => Reply {
            value: number.0.cast_unsigned(),
            ..Reply::without_picture(POC_DERIVATION, DONE)
        },
        Err(why) => Reply::without_picture(POC_DERIVATION, u8::from(why)),
    }
}
