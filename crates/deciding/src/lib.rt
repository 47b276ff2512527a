// The group planner: the Rust's `decide_normal_gop` (src/enc/mod.rs), which says what a picture is to be before its buffer is filled.
// The lookups in the input queue and the forced slice type stay in the Rust.
#![tactic(auto)]

ghost use Rattle.std.specs.Prelude.{◌≡◌, false, ◌≤◌, Ok};
ghost use Rattle.poc.specs.PictureNumber.{max_poc};
ghost use Rattle.gop.specs.Plan.{is_key, is_inter, bad_plan, at_count, decided_plan, plan};

use between::{in_hierarchy, without_hierarchy};
use def::{DocOffset, EvcPoc, FRM_DEPTH_0, FRM_DEPTH_1, MAX_POC, PocVal, Refusal, SliceType};
use gop::PicturePlan;
use tbl::GopSize;

fn is_key(pic_imcnt: u64, i_period: u64) -> bool
    ensures { result ≡ is_key pic_imcnt i_period }
{
    pic_imcnt.is_multiple_of(i_period)
}

fn is_inter(slice_type: SliceType) -> bool
    ensures { result ≡ is_inter slice_type }
{
    matches!(slice_type, SliceType::EVC_ST_P | SliceType::EVC_ST_B)
}

// 19, where the length is a group's. The Rust's subtraction is that of `without_hierarchy`.
fn is_bad_plan(
    pic_imcnt: u64,
    gop_size: GopSize,
    key: bool,
    inter: SliceType,
    hierarchy: bool,
) -> bool
    ensures { result ≡ bad_plan pic_imcnt gop_size.pictures key inter hierarchy }
{
    !is_inter(inter)
        || (MAX_POC as u64) < pic_imcnt
        || (!hierarchy
            && !key
            && pic_imcnt % gop_size.pictures != 0
            && pic_imcnt < gop_size.pictures)
}

// A key picture, or a multiple of the length.
fn at_count(slice_type: SliceType, slice_depth: u8, pic_imcnt: u64, poc: &mut EvcPoc) -> PicturePlan
    requires { pic_imcnt ≤ max_poc }
    ensures answer { Ok result ≡ (at_count slice_type slice_depth pic_imcnt).answer }
    ensures left { poc.new ≡ (at_count slice_type slice_depth pic_imcnt).poc }
{
    let poc_val = PocVal(pic_imcnt as i32);
    *poc = EvcPoc {
        poc_val,
        prev_poc_val: pic_imcnt as u32,
        prev_doc_offset: DocOffset(0),
    };
    PicturePlan {
        slice_type,
        slice_depth,
        poc_val,
        slice_ref_flag: true,
    }
}

// A plan that no test has turned down.
fn decided(
    pic_imcnt: u64,
    gop_size: GopSize,
    key: bool,
    inter: SliceType,
    hierarchy: bool,
    poc: &mut EvcPoc,
) -> Result<PicturePlan, Refusal>
    requires { bad_plan pic_imcnt gop_size.pictures key inter hierarchy ≡ false }
    ensures answer { result
        ≡ (decided_plan pic_imcnt gop_size.pictures key inter hierarchy poc.old).answer }
    ensures left { poc.new
        ≡ (decided_plan pic_imcnt gop_size.pictures key inter hierarchy poc.old).poc }
{
    let place = pic_imcnt % gop_size.pictures;
    if key {
        return Ok(at_count(SliceType::EVC_ST_I, FRM_DEPTH_0, pic_imcnt, poc));
    }
    if place == 0 {
        return Ok(at_count(inter, FRM_DEPTH_1, pic_imcnt, poc));
    }
    if hierarchy {
        return in_hierarchy(gop_size, place, inter, poc);
    }
    Ok(without_hierarchy(pic_imcnt, gop_size.pictures, inter, poc))
}

/// The plan of picture `pic_imcnt`, on the record that the plan before it left. A call turned down leaves the record as it was.
#[tactic(auto, unfolding(gop::specs::Plan::plan))]
pub fn decide_normal_gop(
    pic_imcnt: u64,
    gop_size: u64,
    i_period: u64,
    inter_slice_type: u8,
    hierarchy: bool,
    poc: &mut EvcPoc,
) -> Result<PicturePlan, Refusal>
    ensures answer { result
        ≡ (plan pic_imcnt gop_size i_period inter_slice_type hierarchy poc.old).answer }
    ensures left { poc.new
        ≡ (plan pic_imcnt gop_size i_period inter_slice_type hierarchy poc.old).poc }
{
    let gop_size = GopSize::try_from(gop_size)?;
    let inter = SliceType::from(inter_slice_type);
    let key = is_key(pic_imcnt, i_period);
    if is_bad_plan(pic_imcnt, gop_size, key, inter, hierarchy) {
        return Err(Refusal::BadPlan);
    }
    decided(pic_imcnt, gop_size, key, inter, hierarchy, poc)
}
