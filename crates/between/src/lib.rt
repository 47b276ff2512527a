// The plan of a picture between two multiples of the group's length, with the hierarchy or without it. The group planner, crate `deciding`,
// calls this.
#![tactic(auto)]

ghost use Rattle.std.specs.Prelude.{◌≡◌, ◌+◌, ◌%◌, ◌≤◌, ◌<◌};
ghost use Rattle.tbl.specs.DepthRows.{depth_rule};
ghost use Rattle.poc.specs.PictureNumber.{max_poc};
ghost use Rattle.gop.specs.Plan.{in_hierarchy, without_hierarchy};

use def::{EvcPoc, FRM_DEPTH_2, PocVal, Refusal, SliceType};
use derivation::evc_poc_derivation;
use gop::PicturePlan;
use tbl::{GopSize, slice_depth};

// A depth that the row has.
#[tactic(auto, unfolding(tbl::specs::DepthRows::slice_depth))]
fn depth_at(gop_size: GopSize, pos: u64) -> u8
    requires { pos + 1 < gop_size.pictures }
    ensures { result ≡ depth_rule pos }
{
    slice_depth(gop_size.pictures, pos).unwrap()
}

/// A picture between two multiples of the length, in the hierarchy.
pub fn in_hierarchy(
    gop_size: GopSize,
    place: u64,
    inter: SliceType,
    poc: &mut EvcPoc,
) -> Result<PicturePlan, Refusal>
    requires { (0 < place) × (place < gop_size.pictures) }
    ensures answer { result ≡ (in_hierarchy gop_size.pictures place inter poc.old).answer }
    ensures left { poc.new ≡ (in_hierarchy gop_size.pictures place inter poc.old).poc }
{
    let slice_depth = depth_at(gop_size, place - 1);
    let last = depth_at(gop_size, gop_size.pictures - 2);
    let poc_val = evc_poc_derivation(gop_size.log2(), slice_depth - 1, poc)?;
    Ok(PicturePlan {
        slice_type: inter,
        slice_depth,
        poc_val,
        slice_ref_flag: slice_depth != last,
    })
}

/// The same without the hierarchy: in the order of display, one length back. Only the number in the record is written.
pub fn without_hierarchy(
    pic_imcnt: u64,
    gop_size: u64,
    inter: SliceType,
    poc: &mut EvcPoc,
) -> PicturePlan
    requires { (0 < gop_size) × (gop_size ≤ pic_imcnt) × (pic_imcnt ≤ max_poc)
        × (0 < pic_imcnt % gop_size) }
    ensures answer { Ok result ≡ (without_hierarchy pic_imcnt gop_size inter poc.old).answer }
    ensures left { poc.new ≡ (without_hierarchy pic_imcnt gop_size inter poc.old).poc }
{
    let number = (pic_imcnt - gop_size) as u32;
    poc.poc_val = PocVal(number as i32);
    PicturePlan {
        slice_type: inter,
        slice_depth: FRM_DEPTH_2,
        poc_val: poc.poc_val,
        slice_ref_flag: false,
    }
}
