// The static library for C and Rust: functions over lent memory, thin over the crates below. Here are those on an image and on the depth
// tables; those on the running machine stand in `arrays`, those that load and save an image in `exchanged`, the group planner in `plan`, and
// those on answer lines and call lines in `lines`. Where a size or a flag byte does not fit, a function gives 18 and writes nothing.
#![tactic(auto)]

pub mod arrays;
pub mod exchanged;
pub mod lines;
pub mod plan;
pub mod why;

ghost use Rattle.std.specs.Prelude.{◌≡◌};
ghost use Rattle.tbl.specs.DepthRows.{slice_depth, slice_depth_p};
ghost use Rattle.images.specs.Called.{Renews, Answers};
ghost use Rattle.image_copy.specs.Copied.{Copies};
ghost use Rattle.depths.specs.Depths.{depth_or_zero};

use statuses::status_of;

// Writes the new machine, whatever the image held: 0.
#[unsafe(no_mangle)]
pub extern "C" fn picman_new(image: &mut [u8]) -> u8
    ensures { Renews result image.old image.new }
{
    status_of(images::renew_image(image))
}

// One call: the bytes of a call line, check byte too, not in hex. Writes the answer and gives its status.
#[unsafe(no_mangle)]
pub extern "C" fn picman_call(image: &mut [u8], call: &[u8], answer: &mut [u8]) -> u8
    ensures { Answers result image.old call.now answer.old
        image.new answer.new }
{
    images::call_image(image, call, answer)
}

// Writes an entry at place `cnt` of one list: 0, or 13 or 14.
#[unsafe(no_mangle)]
pub extern "C" fn picman_copy_refp(image: &mut [u8], cnt: u64, lidx: u64, entry: &[u8]) -> u8
    ensures { Copies result image.old cnt lidx entry.now image.new }
{
    status_of(image_copy::copy_image(image, cnt, lidx, entry))
}

// The depth at a position of a group with a hierarchy of B slices.
#[unsafe(no_mangle)]
pub extern "C" fn picman_slice_depth(gop_size: u64, position: u64) -> u8
    ensures { result ≡ depth_or_zero (slice_depth gop_size position) }
{
    depths::depth_or_zero(gop_size, position)
}

// The depth at a position of a group of P slices.
#[unsafe(no_mangle)]
pub extern "C" fn picman_slice_depth_p(gop_size: u64, position: u64) -> u8
    ensures { result ≡ depth_or_zero (slice_depth_p gop_size position) }
{
    depths::depth_p_or_zero(gop_size, position)
}
