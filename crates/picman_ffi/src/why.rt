// Why a picture is or is not in the forward list of a slice, for C and Rust: crates `image_why` and `machine_why` under the library's names.
ghost use Rattle.std.specs.Prelude.{◌≡◌};
ghost use Rattle.machine.specs.Lent.{slices};
ghost use Rattle.questions.specs.Asked.{why_left, why_of_image, why_of_slices};

use image_why::why_of_image;
use machine_why::why_of_slices;
use statuses::status_of;

// Of the state of an image: 0 and the two bytes of the reason, or the refusal.
#[unsafe(no_mangle)]
pub extern "C" fn picman_why(image: &[u8], call: &[u8], slot: u8, reason: &mut [u8]) -> u8
    ensures { why_left result reason.new
        ≡ why_of_image image.now call.now slot reason.old }
{
    status_of(why_of_image(image, call, slot, reason))
}

// The same of the running machine, whose arrays are only read.
#[unsafe(no_mangle)]
pub extern "C" fn picman_machine_why(
    keys: &[u64],
    rows: &[u32],
    registers: &[u32],
    call: &[u8],
    slot: u8,
    reason: &mut [u8],
) -> u8
    ensures { let machine = slices keys.now rows.now registers.now in
        why_left result reason.new ≡ why_of_slices machine call.now slot reason.old }
{
    status_of(why_of_slices(keys, rows, registers, call, slot, reason))
}
