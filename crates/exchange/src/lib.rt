// A machine by value and the image, its form for exchange: read from the bytes of an image and written as them. Whoever calls has tested the
// length.
#![tactic(auto)]

ghost use Rattle.std.specs.Prelude.{◌≡◌, length};
ghost use Rattle.image.specs.Image.{image_length};
ghost use Rattle.exchange.specs.Lent.{machine_of, machine_bytes, ImageHolds};

use image::reading::{read_pm, read_poc, read_refps};
use image::writing::write_image;
use machine::Machine;

pub fn read_machine(image: &[u8]) -> Machine
    requires { length image.now ≡ image_length }
    ensures { result ≡ machine_of image.now }
{
    Machine {
        pm: read_pm(image),
        refp: read_refps(image),
        poc: read_poc(image),
    }
}

// The machine comes by value: of what stands behind a reference the proof would not know that each number fits its width.
pub fn write_machine(image: &mut [u8], machine: Machine)
    requires { length image.old ≡ image_length }
    ensures bytes { image.new ≡ machine_bytes machine }
    ensures holds { ImageHolds image.new machine }
{
    write_image(image, &machine.pm, &machine.refp, machine.poc);
}
