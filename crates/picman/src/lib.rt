// The calls of the picture manager on the running form, in place: what the arrays stand for afterwards, and the answer, are what the definition
// in specs/ makes of what they stood for before. They rely on a whole state: whoever calls them has tested it, or knows it from the call before.
#![tactic(auto)]

pub mod answer;
pub mod get;
pub mod init;
pub mod out;
pub mod place;
pub mod put;

// A picture as an answer shows it.
#[derive(Clone, Copy)]
pub struct Shown {
    pub buffer: u8,
    pub poc: u32,
}

// No picture is wanted for output.
#[derive(Clone, Copy)]
pub struct NoMoreOutput;
