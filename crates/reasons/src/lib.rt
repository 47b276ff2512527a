// Why a picture of the state is or is not in the forward list that a list call builds: the answers. What they mean, and what is claimed of
// them, stands in specs/; crate `judging` finds the answer.
#![tactic(auto)]

// The earliest of these that holds is the answer, but for the last.
#[derive(Clone, Copy)]
pub enum Reason {
    // Taken, at this place of the forward list, counted from 0.
    Taken(u8),
    // Not marked.
    NotMarked,
    // The list was full before the picture's turn.
    Full,
    // Old.
    Old,
    // The same number as the current picture's.
    SameNumber,
    // On a side that the slice type does not take.
    OtherSide,
    // Its layer was over the bound at its turn.
    LayerOverBound,
    // No list asked: slice I.
    NoListAsked,
}
