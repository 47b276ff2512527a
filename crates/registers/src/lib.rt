// The scalars of the running machine as thirteen numbers, for callers in C: the lease's key in two halves, the next output number, the
// record, and the seven counts. Any numbers may stand there; `rest_of` and `poc_of` in specs/Registers.antt say what they are read as.
#![tactic(auto)]

ghost use Rattle.std.specs.Prelude.{◌≡◌, ◌<◌, min, length};
ghost use Rattle.registers.specs.Registers.{registers_length, highest_count, rest_of, poc_of, registers_of};

use def::{DocOffset, EvcPoc, PocVal};
use keys::Rest;

pub const REGISTERS: usize = 13;

fn wide(n: u32) -> u64
    ensures { (result ≡ n) × (result < 4294967296) }
{
    n as u64
}

// A count above 255 is read as 255, which no rule of a whole state lets pass where a rule is on it.
fn count_of(n: u32) -> u8
    ensures { result ≡ min n highest_count }
{
    n.min(255) as u8
}

pub fn rest_of(registers: &[u32]) -> Rest
    requires { length registers.now ≡ registers_length }
    ensures { result ≡ rest_of registers.now }
{
    Rest {
        lease: wide(registers[0]) + wide(registers[1]) * 0x1_0000_0000,
        max_pb_size: count_of(registers[6]),
        max_num_ref_pics: count_of(registers[7]),
        cur_pb_size: count_of(registers[8]),
        cur_num_ref_pics: count_of(registers[9]),
        num_refp_0: count_of(registers[10]),
        num_refp_1: count_of(registers[11]),
        poc_next_output: registers[2],
        poc_increase: count_of(registers[12]),
    }
}

#[tactic(auto, using(def::proofs::WordLaws::cast_signed_is))]
pub fn poc_of(registers: &[u32]) -> EvcPoc
    requires { length registers.now ≡ registers_length }
    ensures { result ≡ poc_of registers.now }
{
    EvcPoc {
        poc_val: PocVal(registers[3].cast_signed()),
        prev_poc_val: registers[4],
        prev_doc_offset: DocOffset(registers[5].cast_signed()),
    }
}

#[tactic(auto, using(def::proofs::WordLaws::cast_unsigned_is))]
fn words(rest: Rest, poc: EvcPoc) -> [u32; REGISTERS]
    ensures { result ≡ registers_of rest poc }
{
    let number = poc.poc_val.0;
    let offset = poc.prev_doc_offset.0;
    [
        (rest.lease % 0x1_0000_0000) as u32,
        (rest.lease / 0x1_0000_0000) as u32,
        rest.poc_next_output,
        number.cast_unsigned(),
        poc.prev_poc_val,
        offset.cast_unsigned(),
        rest.max_pb_size as u32,
        rest.max_num_ref_pics as u32,
        rest.cur_pb_size as u32,
        rest.cur_num_ref_pics as u32,
        rest.num_refp_0 as u32,
        rest.num_refp_1 as u32,
        rest.poc_increase as u32,
    ]
}

// Writes the scalars; they are read back as they are.
pub fn store(registers: &mut [u32], rest: Rest, poc: EvcPoc)
    requires { length registers.old ≡ registers_length }
    ensures written { registers.new ≡ registers_of rest poc }
    ensures kept { (rest_of registers.new ≡ rest) × (poc_of registers.new ≡ poc) }
{
    registers.copy_from_slice(&words(rest, poc));
}
