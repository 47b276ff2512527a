// The copy of an entry's bytes into the lists of an image. Where a size or a flag byte does not fit, it is a bad line and nothing is written; in
// the contract of `copy_image`, `given`, `holds` and `kept` are as for the calls of crate `images`.
#![tactic(auto)]

ghost use Rattle.std.specs.Prelude.{◌≡◌, length};
ghost use Rattle.image.specs.Image.{refp_width, image_length};
ghost use Rattle.exchange.specs.Lent.{left, machine_of, ImageHolds};
ghost use Rattle.statuses.specs.Statuses.{status};
ghost use Rattle.image_copy.specs.Copied.{is_entry, copy_into, with_lists, relisted, Copies};

use copying::check_copy_refp;
use def::{EvcRefP, Refusal};
use exchange::{read_machine, write_machine};
use image::parts::Part;
use image::places::REFP_WIDTH;
use image::{is_flag, is_image};

fn is_entry(entry: &[u8]) -> bool
    ensures { result ≡ is_entry entry.now }
{
    entry.len() == REFP_WIDTH && is_flag(entry, 0)
}

// Copy on an image and an entry that are what they must be.
fn copy_entry(image: &mut [u8], cnt: u64, lidx: u64, entry: &[u8]) -> Result<(), Refusal>
    requires { (length image.old ≡ image_length) × (length entry.now ≡ refp_width) }
    ensures given { let image-in = image.old in
        left (status result) image.new ≡ relisted image-in (copy_into image-in cnt lidx entry.now) }
    ensures holds { let image-in = image.old in
        let lists = (copy_into image-in cnt lidx entry.now).refp in
        ImageHolds image.new (with_lists (machine_of image-in) lists) }
{
    let mut machine = read_machine(image);
    let src = EvcRefP::read(entry, 0);
    let done = check_copy_refp(&mut machine.refp, cnt, lidx, src);
    write_machine(image, machine);
    done
}

// Writes an entry at place `cnt` of one list.
pub fn copy_image(image: &mut [u8], cnt: u64, lidx: u64, entry: &[u8]) -> Result<(), Refusal>
    ensures { Copies (status result) image.old cnt lidx entry.now image.new }
{
    if !is_image(image) || !is_entry(entry) {
        return Err(Refusal::BadLine);
    }
    copy_entry(image, cnt, lidx, entry)
}
