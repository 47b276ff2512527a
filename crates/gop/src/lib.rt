// The group planner in definitions: what a picture is to be before its buffer is filled, the Rust's `decide_normal_gop` (src/enc/mod.rs), and
// what is claimed of a planned group. The type of a plan, which crate `deciding` makes.
#![tactic(auto)]

use def::{PocVal, SliceType};

/// What a picture is to be.
#[derive(Clone, Copy)]
pub struct PicturePlan {
    pub slice_type: SliceType,
    pub slice_depth: u8,
    pub poc_val: PocVal,
    pub slice_ref_flag: bool,
}
