// The calls of the picture manager on a state that is lent, with the names of the original: each takes the state apart, tests it, calls the
// running core and puts the state together. Any state may come: one that is not whole stays as it is and is refused.
#![tactic(auto)]

pub mod get;
pub mod init;
pub mod opening;
pub mod out;
pub mod put;
