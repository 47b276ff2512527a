// The machine that a run begins with: nothing in it, and every number 0.
ghost use Rattle.std.specs.Prelude.{◌≡◌, pos};
ghost use Rattle.def.specs.State.{new_pm};
ghost use Rattle.poc.specs.PictureNumber.{record_of};
ghost use Rattle.machine.specs.Running.{new_scalars};
ghost use Rattle.machine.specs.Step.{new_lists, new_machine};

use crate::{Machine, Scalars};
use def::{
    DocOffset, EvcPm, EvcPoc, EvcRefP, MAX_NUM_REF_PICS, MAX_PB_SIZE, PocVal, REFP_PLACES,
    empty_slot,
};
use keys::Rest;

fn new_pm() -> EvcPm
    ensures { result ≡ new_pm }
{
    let slot = empty_slot();
    let pic = [slot; MAX_PB_SIZE];
    EvcPm {
        pic,
        pic_lease: slot,
        max_pb_size: 0,
        max_num_ref_pics: 0,
        cur_pb_size: 0,
        cur_num_ref_pics: 0,
        num_refp_0: 0,
        num_refp_1: 0,
        poc_next_output: 0,
        poc_increase: 0,
    }
}

fn new_refp() -> [EvcRefP; REFP_PLACES]
    ensures { result ≡ new_lists }
{
    let entry = EvcRefP {
        present: false,
        buf: 0,
        poc: 0,
        list_poc: [0; MAX_NUM_REF_PICS],
    };
    [entry; REFP_PLACES]
}

fn new_poc() -> EvcPoc
    ensures { result ≡ record_of (pos 0) 0 0 }
{
    EvcPoc {
        poc_val: PocVal(0),
        prev_poc_val: 0,
        prev_doc_offset: DocOffset(0),
    }
}

pub fn new_machine() -> Machine
    ensures { result ≡ new_machine }
{
    let pm = new_pm();
    let refp = new_refp();
    let poc = new_poc();
    Machine { pm, refp, poc }
}

// The scalars of the new machine; its keys and rows are all zero.
pub fn new_scalars() -> Scalars
    ensures { result ≡ new_scalars }
{
    let rest = Rest {
        lease: 0,
        max_pb_size: 0,
        max_num_ref_pics: 0,
        cur_pb_size: 0,
        cur_num_ref_pics: 0,
        num_refp_0: 0,
        num_refp_1: 0,
        poc_next_output: 0,
        poc_increase: 0,
    };
    let poc = new_poc();
    Scalars { rest, poc }
}
