// State, lists and record together, and one call on them. `Machine` is what the definitions speak of; the running machine is two lent arrays,
// keys and rows, and the scalars, and `machine_in` in specs/Running.antt says which `Machine` they stand for.
#![tactic(auto)]

use def::{EvcPm, EvcPoc, EvcRefP, REFP_PLACES};
use keys::Rest;
use line::Reply;

pub mod fields;
pub mod fresh;

// All that the program keeps from call to call.
#[derive(Clone, Copy)]
pub struct Machine {
    pub pm: EvcPm,
    pub refp: [EvcRefP; REFP_PLACES],
    pub poc: EvcPoc,
}

// The reply to a call, with the machine after it.
#[derive(Clone, Copy)]
pub struct Stepped {
    pub reply: Reply,
    pub machine: Machine,
}

// What the running machine keeps beside the lent arrays.
#[derive(Clone, Copy)]
pub struct Scalars {
    pub rest: Rest,
    pub poc: EvcPoc,
}
