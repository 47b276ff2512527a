// Searches, counts and moves over the keys of the slots, for marking and the calls of the picture manager.
#![tactic(auto)]

pub mod buffers;
pub mod moves;
pub mod places;
