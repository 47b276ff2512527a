// The group planner for C and Rust: crate `planning` under the library's name.
ghost use Rattle.std.specs.Prelude.{◌≡◌};
ghost use Rattle.planning.specs.Planned.{plan_left, plan_called};

use planning::plan_picture;

// Plans one picture: 0, or the refusal.
#[unsafe(no_mangle)]
pub extern "C" fn picman_plan(
    count: u64,
    gop_size: u64,
    interval: u64,
    inter: u8,
    hierarchy: u8,
    poc: &mut [u8],
    plan: &mut [u8],
) -> u8
    ensures { plan_left result poc.new plan.new
        ≡ plan_called count gop_size interval inter hierarchy poc.old plan.old }
{
    plan_picture(count, gop_size, interval, inter, hierarchy, poc, plan)
}
