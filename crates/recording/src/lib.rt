// A derivation on the running machine, for callers that cannot promise anything: it reads and writes the record's three registers and looks at
// nothing else, since a derivation tests no state. Answer and machine are those of the road that every other call takes (crate `running`), most of
// which would be in vain here.
#![tactic(auto)]

ghost use Rattle.std.specs.Prelude.{◌≡◌, List, ℕ, length, Some};
ghost use Rattle.keys.specs.Keys.{Sized};
ghost use Rattle.registers.specs.Registers.{registers_length};
ghost use Rattle.line.specs.declared.Call.TheVariants.{PocDerivation};
ghost use Rattle.running.specs.Slices.{slices, CallLeaves};
ghost use Rattle.answering.specs.Answered.{OnSlices};
ghost use Rattle.recording.specs.Recorded.{Recorded};

use answering::answer_word;
use def::EvcPoc;
use derivation::evc_poc_derivation;
use line::{Reply, bad_line_reply};
use machine::fields::derived_reply;
use registers::poc_of;
use sizing::is_sized;

// The record's registers, 3 to 5 as `include/picman.h` has them; what the others are read as stays.
fn write_record(registers: &mut [u32], poc: EvcPoc)
    requires { length registers.old ≡ registers_length }
    ensures { Recorded registers.old registers.new poc }
{
    registers[3] = poc.poc_val.0.cast_unsigned();
    registers[4] = poc.prev_poc_val;
    registers[5] = poc.prev_doc_offset.0.cast_unsigned();
}

// A derivation that is turned down leaves the registers unwritten.
fn derive_record(registers: &mut [u32], log2_sub_gop_length: u8, tid: u8) -> Reply
    requires { length registers.old ≡ registers_length }
    ensures { let before = registers.old in
        let after = registers.new in
        let call = PocDerivation log2_sub_gop_length tid in
        ((keys rows : List ℕ) → Sized keys rows → CallLeaves result call (slices keys rows before) (slices keys rows after)) }
{
    let mut poc = poc_of(registers);
    let answer = evc_poc_derivation(log2_sub_gop_length, tid, &mut poc);
    if answer.is_ok() {
        write_record(registers, poc);
    }
    derived_reply(answer)
}

// Derives a picture number. It reads the record alone, and so works where the state is not whole too.
pub fn derive_on(
    keys: &[u64],
    rows: &[u32],
    registers: &mut [u32],
    log2_sub_gop_length: u8,
    tid: u8,
) -> u64
    ensures { let before = slices keys.now rows.now registers.old in
        let after = slices keys.now rows.now registers.new in
        OnSlices result (Some (PocDerivation log2_sub_gop_length tid)) before after }
{
    if !is_sized(keys, rows, registers) {
        return answer_word(bad_line_reply());
    }
    answer_word(derive_record(registers, log2_sub_gop_length, tid))
}
