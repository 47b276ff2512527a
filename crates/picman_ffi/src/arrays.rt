// The running machine for C: three slices that the caller owns, keys, rows and registers, on which calls work in place, with any bits in them.
// One function for each call, with plain numbers, and one for the bytes of a call line; all are thin over crates `call_lines` and `answering`,
// `recording`, `renewing`, `one_entry` and `wire`.
#![tactic(auto, using(answering::proofs::OnLine::on_line))]

ghost use Rattle.std.specs.Prelude.{Some};
ghost use Rattle.keys.specs.Keys.{lists_in};
ghost use Rattle.line.specs.declared.Call.TheVariants.{Init, GetEmptyPic, OutPic, RefpInit, PocDerivation};
ghost use Rattle.refp.specs.Copy.{copy};
ghost use Rattle.running.specs.Slices.{slices};
ghost use Rattle.answering.specs.Answered.{OnSlices};
ghost use Rattle.call_lines.specs.PutLine.{put_line};
ghost use Rattle.renewing.specs.Renewed.{Renewed};
ghost use Rattle.wire.specs.Wire.{Wired};
ghost use Rattle.one_entry.specs.OneEntry.{entry_given, fits, rows_placed, EntryPlaced};

use answering::answer_on;
use call_lines::{get_line, init_line, lists_line, out_line, put_line};
use one_entry::place_entry;
use recording::derive_on;
use renewing::renew;
use statuses::status_of;
use wire::call_bytes;

// Writes the new machine, all zero, whatever stood there: 0.
#[unsafe(no_mangle)]
pub extern "C" fn picman_machine_new(
    keys: &mut [u64],
    rows: &mut [u32],
    registers: &mut [u32],
) -> u8
    ensures { let before = slices keys.old rows.old registers.old in
        let after = slices keys.new rows.new registers.new in
        Renewed result before after }
{
    status_of(renew(keys, rows, registers))
}

// Sets the limits of store and lists; the step of output becomes 1, and a leased picture is given up.
#[unsafe(no_mangle)]
pub extern "C" fn picman_machine_init(
    keys: &mut [u64],
    rows: &mut [u32],
    registers: &mut [u32],
    max_pb_size: u8,
    max_num_ref_pics: u8,
) -> u64
    ensures { let before = slices keys.old rows.old registers.old in
        let after = slices keys.new rows.new registers.new in
        OnSlices result (Some (Init max_pb_size max_num_ref_pics)) before after }
{
    answer_on(
        keys,
        rows,
        registers,
        Some(init_line(max_pb_size, max_num_ref_pics)),
    )
}

// Leases a picture: the idle one in the lowest slot, else a new one.
#[unsafe(no_mangle)]
pub extern "C" fn picman_machine_get(
    keys: &mut [u64],
    rows: &mut [u32],
    registers: &mut [u32],
) -> u64
    ensures { let before = slices keys.old rows.old registers.old in
        let after = slices keys.new rows.new registers.new in
        OnSlices result (Some GetEmptyPic) before after }
{
    answer_on(keys, rows, registers, Some(get_line()))
}

// Puts the leased picture into the store; flags above 15 give 18.
#[unsafe(no_mangle)]
pub extern "C" fn picman_machine_put(
    keys: &mut [u64],
    rows: &mut [u32],
    registers: &mut [u32],
    flags: u8,
    poc: u32,
    temporal_id: u8,
    ref_pic_gap_length: u32,
) -> u64
    ensures { let before = slices keys.old rows.old registers.old in
        let after = slices keys.new rows.new registers.new in
        OnSlices result (put_line flags poc temporal_id ref_pic_gap_length) before after }
{
    answer_on(
        keys,
        rows,
        registers,
        put_line(flags, poc, temporal_id, ref_pic_gap_length),
    )
}

// Hands over the next picture for output.
#[unsafe(no_mangle)]
pub extern "C" fn picman_machine_out(
    keys: &mut [u64],
    rows: &mut [u32],
    registers: &mut [u32],
) -> u64
    ensures { let before = slices keys.old rows.old registers.old in
        let after = slices keys.new rows.new registers.new in
        OnSlices result (Some OutPic) before after }
{
    answer_on(keys, rows, registers, Some(out_line()))
}

// Builds the reference lists of a slice.
#[unsafe(no_mangle)]
pub extern "C" fn picman_machine_lists(
    keys: &mut [u64],
    rows: &mut [u32],
    registers: &mut [u32],
    slice_type: u8,
    poc: u32,
    layer_id: u8,
    last_intra: u32,
    max_num_ref_pics: u8,
) -> u64
    ensures { let before = slices keys.old rows.old registers.old in
        let after = slices keys.new rows.new registers.new in
        OnSlices result (Some (RefpInit slice_type poc layer_id last_intra max_num_ref_pics)) before after }
{
    answer_on(
        keys,
        rows,
        registers,
        Some(lists_line(slice_type, poc, layer_id, last_intra, max_num_ref_pics)),
    )
}

// Derives a picture number. It reads the record alone, and so works where the state is not whole too.
#[unsafe(no_mangle)]
pub extern "C" fn picman_machine_derive(
    keys: &mut [u64],
    rows: &mut [u32],
    registers: &mut [u32],
    log2_sub_gop_length: u8,
    tid: u8,
) -> u64
    ensures { let before = slices keys.old rows.old registers.old in
        let after = slices keys.new rows.new registers.new in
        OnSlices result (Some (PocDerivation log2_sub_gop_length tid)) before after }
{
    derive_on(keys, rows, registers, log2_sub_gop_length, tid)
}

// Writes an entry at place `cnt` of list `lidx`: 0, 13 or 14, or 18 where a size or the flag does not fit.
#[unsafe(no_mangle)]
pub extern "C" fn picman_machine_copy(
    rows: &mut [u32],
    cnt: u64,
    lidx: u64,
    present: u8,
    buf: u8,
    poc: u32,
    list_poc: &[u32],
) -> u8
    ensures { let before = rows.old in
        let numbers = list_poc.now in
        let entry = entry_given present buf poc numbers in
        let placed = rows_placed before cnt lidx entry in
        let wanted = copy (lists_in before) cnt lidx entry in
        EntryPlaced result (fits before present numbers) before rows.new placed wanted }
{
    status_of(place_entry(rows, cnt, lidx, present, buf, poc, list_poc))
}

// One call from the bytes of its line, check byte too, not in hex: writes the answer's bytes and gives its status.
#[unsafe(no_mangle)]
pub extern "C" fn picman_machine_call(
    keys: &mut [u64],
    rows: &mut [u32],
    registers: &mut [u32],
    call: &[u8],
    answer: &mut [u8],
) -> u8
    ensures { let before = slices keys.old rows.old registers.old in
        let after = slices keys.new rows.new registers.new in
        Wired result call.now answer.old answer.new before after }
{
    call_bytes(keys, rows, registers, call, answer)
}
