// Picture numbers derived: the Rust's `evc_poc_derivation` (src/util.rs), its tests first, on a record that the caller lends. The machine, the
// library and the group planner call this.
#![tactic(auto)]

ghost use Rattle.std.specs.Prelude.{◌≡◌, ◌≤◌};
ghost use Rattle.poc.specs.PictureNumber.{derive, bad_record, key_picture, other_picture};
ghost use Rattle.poc.specs.Number.{left_by};
ghost use Rattle.poc.specs.Domain.{Checked};

use def::{DocOffset, EvcPoc, MAX_POC, PocVal, Refusal};
use offsets::{doc_offset_from, poc_offset};

// The longest sub-group has 2^15 pictures, so no decoding offset is above 2^15 - 1.
const MAX_LOG2_SUB_GOP_LENGTH: u8 = 15;

const MAX_DOC_OFFSET: i32 = 32767;

// 16: previous too high, or an offset outside 0 to 32,767.
fn is_bad_record(poc: EvcPoc) -> bool
    ensures { result ≡ bad_record poc }
{
    MAX_POC < poc.prev_poc_val || !(0..=MAX_DOC_OFFSET).contains(&poc.prev_doc_offset.0)
}

// Layer 0: the record behind the picture that starts a sub-group.
fn key_picture(log2_sub_gop_length: u8, poc: EvcPoc) -> Result<EvcPoc, Refusal>
    requires { Checked log2_sub_gop_length 0 poc }
    ensures { left_by poc result ≡ key_picture log2_sub_gop_length poc }
{
    let key = poc.prev_poc_val + (1u32 << log2_sub_gop_length);
    if MAX_POC < key {
        return Err(Refusal::NumberTooHigh);
    }
    let number = key as i32;
    Ok(EvcPoc {
        poc_val: PocVal(number),
        prev_poc_val: key,
        prev_doc_offset: DocOffset(0),
    })
}

// Another layer. A wrap of the first step moves previous on, a wrap in the search does not.
// What is added is negative, so no number is too high unless previous is.
fn other_picture(log2_sub_gop_length: u8, tid: u8, poc: EvcPoc) -> Result<EvcPoc, Refusal>
    requires { (1 ≤ tid) × Checked log2_sub_gop_length tid poc }
    ensures { left_by poc result ≡ other_picture log2_sub_gop_length tid poc }
{
    let sub_gop_length = 1u32 << log2_sub_gop_length;
    let next = (poc.prev_doc_offset.0 as u32 + 1) % sub_gop_length;
    let prev_poc_val = if next == 0 {
        poc.prev_poc_val + sub_gop_length
    } else {
        poc.prev_poc_val
    };
    if MAX_POC < prev_poc_val {
        return Err(Refusal::NumberTooHigh);
    }
    let first = next as i32;
    let prev_doc_offset = doc_offset_from(log2_sub_gop_length, tid, DocOffset(first));
    let number = prev_poc_val as i32 + poc_offset(log2_sub_gop_length, tid, prev_doc_offset);
    Ok(EvcPoc {
        poc_val: PocVal(number),
        prev_poc_val,
        prev_doc_offset,
    })
}

// The record after a derivation, which holds its number.
#[tactic(auto, unfolding(poc::specs::PictureNumber::derive))]
fn next_record(log2_sub_gop_length: u8, tid: u8, poc: EvcPoc) -> Result<EvcPoc, Refusal>
    ensures { left_by poc result ≡ derive log2_sub_gop_length tid poc }
{
    if MAX_LOG2_SUB_GOP_LENGTH < log2_sub_gop_length || log2_sub_gop_length < tid {
        return Err(Refusal::BadLayer);
    }
    if is_bad_record(poc) {
        return Err(Refusal::BadRecord);
    }
    if tid == 0 {
        return key_picture(log2_sub_gop_length, poc);
    }
    other_picture(log2_sub_gop_length, tid, poc)
}

/// The next picture number, on the record that the derivation before it left: for a picture of temporal layer `tid` in a sub-group of
/// 2^`log2_sub_gop_length` pictures. A call turned down leaves the record as it was.
pub fn evc_poc_derivation(
    log2_sub_gop_length: u8,
    tid: u8,
    poc: &mut EvcPoc,
) -> Result<PocVal, Refusal>
    ensures answer { result ≡ (derive log2_sub_gop_length tid poc.old).answer }
    ensures left { poc.new ≡ (derive log2_sub_gop_length tid poc.old).poc }
{
    let after = next_record(log2_sub_gop_length, tid, *poc)?;
    *poc = after;
    Ok(after.poc_val)
}
