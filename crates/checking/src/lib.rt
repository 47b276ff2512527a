// A call on the running machine with any bits in it: one that reads the state tests first whether it is whole.
#![tactic(auto)]

ghost use Rattle.std.specs.Prelude.{◌≡◌, List, ℕ, length};
ghost use Rattle.def.specs.State.{slots};
ghost use Rattle.keys.specs.Keys.{Sized};
ghost use Rattle.machine.specs.Running.{call_byte, is_ready, MakesCall};

use def::Refusal;
use line::{
    Call, GET_EMPTY_PIC, INIT, OUT_PIC, POC_DERIVATION, PUT_PIC, REFP_INIT, Reply, reply_of,
};
use machine::Scalars;
use making::{make_call, reads_state};
use wholeness::is_whole;

fn call_byte(call: Call) -> u8
    ensures { result ≡ call_byte call }
{
    match call {
        Call::Init { .. } => INIT,
        Call::GetEmptyPic => GET_EMPTY_PIC,
        Call::PutPic { .. } => PUT_PIC,
        Call::OutPic => OUT_PIC,
        Call::RefpInit { .. } => REFP_INIT,
        Call::PocDerivation { .. } => POC_DERIVATION,
    }
}

// Whether a call finds what it asks of the state.
fn is_ready(keys: &[u64], s: &Scalars, call: Call) -> bool
    requires { length keys.now ≡ slots }
    ensures { (rows : List ℕ) → result ≡ is_ready keys.now rows s.now call }
{
    !reads_state(call) || is_whole(keys, s.rest)
}

// A call on any bits: one that reads the state tests first whether it is whole.
pub fn checked_call(keys: &mut [u64], rows: &mut [u32], s: &mut Scalars, call: Call) -> Reply
    requires { Sized keys.old rows.old }
    ensures { MakesCall result s.new s.old keys.old rows.old keys.new rows.new call }
{
    if is_ready(keys, s, call) {
        return make_call(keys, rows, s, call);
    }
    reply_of(call_byte(call), Err(Refusal::StateNotWhole))
}
