// Offsets of a picture number: the decoding offset of a layer, and what it adds to the previous number, from a table up to length 256 and above
// in `f32` as the Rust has it.
#![tactic(auto)]

mod table;

ghost use Rattle.std.specs.Prelude.{◌≡◌, pos};
ghost use Rattle.poc.specs.PictureNumber.{offset_from, offset_of};
ghost use Rattle.poc.specs.Standard.{expected_temporal_id};
ghost use Rattle.poc.specs.Domain.{Searched, OfLayer, InTable, signed_offset};

use def::DocOffset;
use table::POC_OFFSETS;

// Sub-groups up to 2^8 pictures have their signed offsets in a table.
const MAX_LOG2_IN_TABLE: u8 = 8;

// The layer of a decoding offset: 0 of 0, else 1 + floor(log2).
fn expected_tid(doc_offset: u32) -> u8
    ensures { result ≡ expected_temporal_id doc_offset }
{
    (u32::BITS - doc_offset.leading_zeros()) as u8
}

// L and the layer are single numbers, as in the Rust and at the C interface; `Searched` and `OfLayer` say in a word what holds of them.

// The first offset of layer `tid` from `doc_offset` on, in the order of decoding, which wraps. A layer's offsets are
// those from 2^(tid-1) to 2^tid - 1, so it is `doc_offset` or else the layer's first, whatever the length.
pub fn doc_offset_from(log2_sub_gop_length: u8, tid: u8, doc_offset: DocOffset) -> DocOffset
    requires { Searched log2_sub_gop_length tid doc_offset.0 }
    ensures { result.0 ≡ pos (offset_from log2_sub_gop_length tid (offset_of doc_offset.0)) }
{
    if tid == expected_tid(doc_offset.0 as u32) {
        return doc_offset;
    }
    let first = 1u32 << (tid - 1);
    DocOffset(first as i32)
}

// The table's signed offset. The decoding offset is never 0, so neither a row's first entry nor the table's is read.
fn table_offset(log2_sub_gop_length: u8, doc_offset: u32) -> i16
    requires { InTable log2_sub_gop_length doc_offset }
    ensures { result ≡ signed_offset log2_sub_gop_length (expected_temporal_id doc_offset) doc_offset }
{
    let sub_gop_length = 1u32 << log2_sub_gop_length;
    POC_OFFSETS[(sub_gop_length + doc_offset) as usize]
}

// The signed offset in `f32`, in the Rust's order of operations.
fn float_offset(log2_sub_gop_length: u8, tid: u8, doc_offset: DocOffset) -> i32
    requires { OfLayer log2_sub_gop_length tid doc_offset.0 }
    ensures { result ≡ signed_offset log2_sub_gop_length tid (offset_of doc_offset.0) }
{
    let sub_gop_length = 1u32 << log2_sub_gop_length;
    (sub_gop_length as f32
        * ((2.0 * doc_offset.0 as f32 + 1.0) / (1u32 << tid) as f32 - 2.0)) as i32
}

// What is added to the previous number, for an offset of layer `tid`. Lengths above 256 keep the float steps.
pub fn poc_offset(log2_sub_gop_length: u8, tid: u8, doc_offset: DocOffset) -> i32
    requires { OfLayer log2_sub_gop_length tid doc_offset.0 }
    ensures { result ≡ signed_offset log2_sub_gop_length tid (offset_of doc_offset.0) }
{
    if MAX_LOG2_IN_TABLE < log2_sub_gop_length {
        return float_offset(log2_sub_gop_length, tid, doc_offset);
    }
    table_offset(log2_sub_gop_length, doc_offset.0 as u32) as i32
}
