// The question why asked of the running machine in a caller's slices, with any bits in them. The library's function for it is thin over this.
#![tactic(auto)]

ghost use Rattle.std.specs.Prelude.{◌≡◌, List, ℕ, length};
ghost use Rattle.statuses.specs.Statuses.{status};
ghost use Rattle.def.specs.State.{slots};
ghost use Rattle.reasons.specs.Reasons.{why};
ghost use Rattle.keys.specs.Keys.{stands};
ghost use Rattle.registers.specs.Registers.{registers_length, rest_of};
ghost use Rattle.machine.specs.Lent.{slices};
ghost use Rattle.questions.specs.Asked.{reason_length, why_left, shown_why, why_of_slices};

use def::{RefpCall, Refusal};
use judging::why_on;
use questions::{REASON_LENGTH, question_in, show_why};
use reasons::Reason;
use registers::rest_of;
use sizing::is_sized;
use wholeness::is_whole;

// The answer on keys and registers of the right sizes.
fn slices_answer(
    keys: &[u64],
    registers: &[u32],
    call: RefpCall,
    slot: u8,
) -> Result<Reason, Refusal>
    requires { (length keys.now ≡ slots) × (length registers.now ≡ registers_length) }
    ensures { (rows : List ℕ) → result ≡ why (stands keys.now rows (rest_of registers.now)) call slot }
{
    let rest = rest_of(registers);
    if !is_whole(keys, rest) {
        return Err(Refusal::StateNotWhole);
    }
    why_on(keys, call, slot)
}

// A list request, of slices of the right sizes.
fn ask_slices(
    keys: &[u64],
    registers: &[u32],
    call: RefpCall,
    slot: u8,
    reason: &mut [u8],
) -> Result<(), Refusal>
    requires { (length keys.now ≡ slots)
        × (length registers.now ≡ registers_length)
        × (length reason.old ≡ reason_length) }
    ensures { let keys_in = keys.now in
        let rest = rest_of registers.now in
        ((rows : List ℕ) →
        why_left (status result) reason.new ≡ shown_why (why (stands keys_in rows rest) call slot) reason.old) }
{
    show_why(reason, slices_answer(keys, registers, call, slot))
}

// Of the running machine: the reason is written, or nothing is.
pub fn why_of_slices(
    keys: &[u64],
    rows: &[u32],
    registers: &[u32],
    call: &[u8],
    slot: u8,
    reason: &mut [u8],
) -> Result<(), Refusal>
    ensures { let machine = slices keys.now rows.now registers.now in
        why_left (status result) reason.new ≡ why_of_slices machine call.now slot reason.old }
{
    if !is_sized(keys, rows, registers) {
        return Err(Refusal::BadLine);
    }
    if reason.len() != REASON_LENGTH {
        return Err(Refusal::BadLine);
    }
    match question_in(call) {
        Some(lists) => ask_slices(keys, registers, lists, slot, reason),
        None => Err(Refusal::BadLine),
    }
}
