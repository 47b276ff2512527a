// States by value and the running form, each made of the other.
#![tactic(auto)]

pub mod apart;
pub mod slot;
pub mod together;
