// The running machine in a caller's slices, loaded from an image and saved as one, with any bits in both. A size or a flag byte that does not fit is
// turned down as a bad line, and a state that is not whole as such, since keys cannot say every such state; then nothing is written.
#![tactic(auto)]

ghost use Rattle.std.specs.Prelude.{◌≡◌, true, length};
ghost use Rattle.statuses.specs.Statuses.{status};
ghost use Rattle.whole.specs.Whole.{whole};
ghost use Rattle.image.specs.Image.{image_length, is_image};
ghost use Rattle.machine.specs.Lent.{slices, sized};
ghost use Rattle.transfer.specs.Exchanged.{Loads, Saves};

use def::Refusal;
use exchange::{read_machine, write_machine};
use image::is_image;
use image::places::IMAGE_LENGTH;
use keys::{ROWS, SLOTS};
use machine::{Machine, Scalars};
use parting::{put_machine, take_machine};
use registers::{poc_of, rest_of, store};
use sizing::is_sized;
use wholeness::is_whole;

// Whether a machine's state is whole, told from its keys.
fn state_is_whole(m: Machine) -> bool
    ensures { result ≡ whole m.pm }
{
    let mut keys = [0u64; SLOTS];
    let mut rows = [0u32; ROWS];
    let s = take_machine(m, &mut keys, &mut rows);
    is_whole(&keys, s.rest)
}

// Arrays of the right sizes get the machine of an image that was found to be one.
fn load_image(
    keys: &mut [u64],
    rows: &mut [u32],
    registers: &mut [u32],
    image: &[u8],
) -> Result<(), Refusal>
    requires { (sized (slices keys.old rows.old registers.old) ≡ true) × (is_image image.now ≡ true) }
    ensures { Loads (status result) keys.old rows.old registers.old image.now
        keys.new rows.new registers.new }
{
    let m = read_machine(image);
    if !state_is_whole(m) {
        return Err(Refusal::StateNotWhole);
    }
    let s = take_machine(m, keys, rows);
    store(registers, s.rest, s.poc);
    Ok(())
}

// The arrays get the machine of an image.
pub fn load(
    keys: &mut [u64],
    rows: &mut [u32],
    registers: &mut [u32],
    image: &[u8],
) -> Result<(), Refusal>
    ensures { Loads (status result) keys.old rows.old registers.old image.now
        keys.new rows.new registers.new }
{
    if !is_sized(keys, rows, registers) {
        return Err(Refusal::BadLine);
    }
    if !is_image(image) {
        return Err(Refusal::BadLine);
    }
    load_image(keys, rows, registers, image)
}

// An image of the right size gets the machine of arrays of the right sizes.
fn save_machine(
    keys: &[u64],
    rows: &[u32],
    registers: &[u32],
    image: &mut [u8],
) -> Result<(), Refusal>
    requires { (sized (slices keys.now rows.now registers.now) ≡ true) × (length image.old ≡ image_length) }
    ensures { Saves (status result) keys.now rows.now registers.now image.old
        image.new }
{
    let rest = rest_of(registers);
    if !is_whole(keys, rest) {
        return Err(Refusal::StateNotWhole);
    }
    let poc = poc_of(registers);
    write_machine(image, put_machine(keys, rows, Scalars { rest, poc }));
    Ok(())
}

// The image gets the machine of the arrays.
pub fn save(keys: &[u64], rows: &[u32], registers: &[u32], image: &mut [u8]) -> Result<(), Refusal>
    ensures { Saves (status result) keys.now rows.now registers.now image.old
        image.new }
{
    if !is_sized(keys, rows, registers) {
        return Err(Refusal::BadLine);
    }
    if image.len() != IMAGE_LENGTH {
        return Err(Refusal::BadLine);
    }
    save_machine(keys, rows, registers, image)
}
