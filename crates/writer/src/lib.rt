// A writer of call lines into a lent buffer.
#![tactic(auto)]

ghost use Rattle.std.specs.Prelude.{◌≡◌};
ghost use Rattle.line.specs.Calls.{call_bytes};
ghost use Rattle.writer.specs.Writing.{written, written_out};

use def::Refusal;
use framing::write_framed;
use line::{Call, GET_EMPTY_PIC, INIT, OUT_PIC, POC_DERIVATION, PUT_PIC, REFP_INIT};
use parsing::call_in;

/// The line of a call whose call byte and fields these are. Gives the length of the line, its newline counted; or why none was written, and
/// then no byte of the buffer has changed.
#[tactic(auto, unfolding(crate::specs::Writing::written))]
pub fn write_fields(fields: &[u8], target: &mut [u8]) -> Result<usize, Refusal>
    ensures { written_out result target.new ≡ written fields.now target.old }
{
    if call_in(fields).is_none() {
        return Err(Refusal::BadLine);
    }
    if target.len() < 2 * fields.len() + 3 {
        return Err(Refusal::NoRoom);
    }
    Ok(write_framed(target, fields))
}

/// The line of a call, as `write_fields` writes it.
pub fn write_call(call: Call, target: &mut [u8]) -> Result<usize, Refusal>
    ensures { written_out result target.new ≡ written (call_bytes call) target.old }
{
    match call {
        Call::Init {
            max_pb_size,
            max_num_ref_pics,
        } => write_fields(&[INIT, max_pb_size, max_num_ref_pics], target),
        Call::GetEmptyPic => write_fields(&[GET_EMPTY_PIC], target),
        Call::PutPic {
            flags,
            poc,
            temporal_id,
            ref_pic_gap_length,
        } => {
            let [p0, p1, p2, p3] = poc.to_be_bytes();
            let [g0, g1, g2, g3] = ref_pic_gap_length.to_be_bytes();
            let fields = [PUT_PIC, flags, p0, p1, p2, p3, temporal_id, g0, g1, g2, g3];
            write_fields(&fields, target)
        }
        Call::OutPic => write_fields(&[OUT_PIC], target),
        Call::RefpInit {
            slice_type,
            poc,
            layer_id,
            last_intra,
            max_num_ref_pics: limit,
        } => {
            let [p0, p1, p2, p3] = poc.to_be_bytes();
            let [i0, i1, i2, i3] = last_intra.to_be_bytes();
            let fields = [
                REFP_INIT, slice_type, p0, p1, p2, p3, layer_id, i0, i1, i2, i3, limit,
            ];
            write_fields(&fields, target)
        }
        Call::PocDerivation {
            log2_sub_gop_length,
            tid,
        } => write_fields(&[POC_DERIVATION, log2_sub_gop_length, tid], target),
    }
}
