// The question why a picture is or is not in the forward list, as bytes, for the library: the bytes of a list call's line, check byte too, and a
// slot, of an image or of the running machine. State and lists are only read. Two lent bytes get the reason; where a size, a flag byte or the
// call does not fit it is turned down as a bad line, and that and every other refusal writes nothing.
#![tactic(auto)]

ghost use Rattle.std.specs.Prelude.{◌≡◌, length};
ghost use Rattle.statuses.specs.Statuses.{status};
ghost use Rattle.line.specs.Calls.{call_from};
ghost use Rattle.questions.specs.Asked.{question_of, question_in, reason_number, place_told, reason_length, why_left, shown_why};

use def::{RefpCall, Refusal};
use line::Call;
use machine::fields::refp_call_of;
use parsing::read_call;
use reasons::Reason;

pub const REASON_LENGTH: usize = 2;

// The list request of a call that asks for one; no other call asks anything here.
fn question_of(call: Call) -> Option<RefpCall>
    ensures { result ≡ question_of call }
{
    match call {
        Call::RefpInit {
            slice_type,
            poc,
            layer_id,
            last_intra,
            max_num_ref_pics,
        } => Some(refp_call_of(slice_type, poc, layer_id, last_intra, max_num_ref_pics)),
        _ => None,
    }
}

// Of the bytes of a call's line; a bad one asks nothing either.
pub fn question_in(call: &[u8]) -> Option<RefpCall>
    ensures { result ≡ question_in (call_from call.now) }
{
    question_of(read_call(call)?)
}

// By a table: one of them carries a place, so that they have no numbers of their own.
fn reason_number(told: Reason) -> u8
    ensures { result ≡ reason_number told }
{
    match told {
        Reason::Taken(place) => 0,
        Reason::NotMarked => 1,
        Reason::Full => 2,
        Reason::Old => 3,
        Reason::SameNumber => 4,
        Reason::OtherSide => 5,
        Reason::LayerOverBound => 6,
        Reason::NoListAsked => 7,
    }
}

// The place in the list of what is taken.
fn place_told(told: Reason) -> u8
    ensures { result ≡ place_told told }
{
    match told {
        Reason::Taken(place) => place,
        _ => 0,
    }
}

pub fn show_why(reason: &mut [u8], answer: Result<Reason, Refusal>) -> Result<(), Refusal>
    requires { length reason.old ≡ reason_length }
    ensures { why_left (status result) reason.new ≡ shown_why answer reason.old }
{
    let told = answer?;
    reason.copy_from_slice(&[reason_number(told), place_told(told)]);
    Ok(())
}
