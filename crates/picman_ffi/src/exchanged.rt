// The running machine from an image and to it.
ghost use Rattle.transfer.specs.Exchanged.{Loads, Saves};

use statuses::status_of;

// The arrays get the machine of an image: 0. A size that does not fit and bytes that are no image give 18, a state that is not whole 7.
#[unsafe(no_mangle)]
pub extern "C" fn picman_machine_load(
    keys: &mut [u64],
    rows: &mut [u32],
    registers: &mut [u32],
    image: &[u8],
) -> u8
    ensures { Loads result keys.old rows.old registers.old image.now
        keys.new rows.new registers.new }
{
    status_of(transfer::load(keys, rows, registers, image))
}

// The image gets the machine of the arrays: 0. A size that does not fit gives 18, a state that is not whole 7.
#[unsafe(no_mangle)]
pub extern "C" fn picman_machine_save(
    keys: &[u64],
    rows: &[u32],
    registers: &[u32],
    image: &mut [u8],
) -> u8
    ensures { Saves result keys.now rows.now registers.now image.old
        image.new }
{
    status_of(transfer::save(keys, rows, registers, image))
}
