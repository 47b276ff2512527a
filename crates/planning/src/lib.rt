// The group planner on a record of 12 bytes and a plan of 7 that the caller lends, for the library's `picman_plan`. Where a size or the byte
// for the hierarchy does not fit it gives 18; that and every other refusal writes nothing.
#![tactic(auto)]

ghost use Rattle.std.specs.Prelude.{◌≡◌, length};
ghost use Rattle.planning.specs.Planned.{plan_left, slice_byte, plan_width, plan_bytes, plan_called};
ghost use Rattle.statuses.specs.Statuses.{status};

use deciding::decide_normal_gop;
use def::{Refusal, SliceType};
use flags::flag_byte;
use gop::PicturePlan;
use records::{read_poc_at, write_poc_at, write_signed};
use statuses::status_of;

const RECORD_LENGTH: usize = 12;

const PLAN_LENGTH: usize = 7;

fn slice_byte(slice_type: SliceType) -> u8
    ensures { result ≡ slice_byte slice_type }
{
    slice_type as u8
}

fn write_plan(plan: &mut [u8], picture: PicturePlan)
    requires { length plan.old ≡ plan_width }
    ensures { plan.new ≡ plan_bytes picture }
{
    let slice_type = picture.slice_type;
    let number = picture.poc_val.0;
    plan[0] = slice_byte(slice_type);
    plan[1] = picture.slice_depth;
    plan[2] = flag_byte(picture.slice_ref_flag);
    write_signed(plan, 3, number);
}

// Plans one picture, and writes the plan and the record after it.
#[tactic(auto, unfolding(crate::specs::Planned::plan_called))]
fn plan_on(
    count: u64,
    gop_size: u64,
    interval: u64,
    inter: u8,
    hierarchy: u8,
    poc: &mut [u8],
    plan: &mut [u8],
) -> Result<(), Refusal>
    ensures { plan_left (status result) poc.new plan.new
        ≡ plan_called count gop_size interval inter hierarchy poc.old plan.old }
{
    if poc.len() != RECORD_LENGTH || plan.len() != PLAN_LENGTH || 1 < hierarchy {
        return Err(Refusal::BadLine);
    }
    let mut record = read_poc_at(poc, 0);
    let picture = decide_normal_gop(
        count,
        gop_size,
        interval,
        inter,
        hierarchy == 1,
        &mut record,
    )?;
    write_poc_at(poc, 0, record);
    write_plan(plan, picture);
    Ok(())
}

// The same for C: 0, or the refusal. The numbers of a plan come singly, as the C interface gives them.
pub fn plan_picture(
    count: u64,
    gop_size: u64,
    interval: u64,
    inter: u8,
    hierarchy: u8,
    poc: &mut [u8],
    plan: &mut [u8],
) -> u8
    ensures { plan_left result poc.new plan.new
        ≡ plan_called count gop_size interval inter hierarchy poc.old plan.old }
{
    status_of(plan_on(count, gop_size, interval, inter, hierarchy, poc, plan))
}
