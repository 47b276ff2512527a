// The image that the library lends to C: state, lists and record as 6,407 bytes, big-endian. Which bytes are an image, what they stand for and how
// they are written. Every call on an image asks first whether its bytes are one.
#![tactic(auto)]

ghost use Rattle.std.specs.Prelude.{◌≡◌, ◌+◌, ◌*◌, ◌≤◌, ◌<◌, length};
ghost use Rattle.seq.specs.Lists.{all_of};
ghost use Rattle.def.specs.State.{slots, list_places};
ghost use Rattle.image.specs.Image.{slot_width, refp_width, refp_place, image_length, row_at, is_flag, slot_flags, is_image};

use crate::places::{IMAGE_LENGTH, REFP_PLACE, REFP_WIDTH, SLOT_WIDTH};
use def::{MAX_PB_SIZE, REFP_PLACES};

pub mod parts;
pub mod places;
pub mod reading;
pub mod writing;

pub fn is_flag(image: &[u8], at: usize) -> bool
    requires { at < length image.now }
    ensures { result ≡ is_flag image.now at }
{
    image[at] <= 1
}

fn slot_flags(image: &[u8], at: usize) -> bool
    requires { at + slot_width ≤ length image.now }
    ensures { result ≡ slot_flags image.now at }
{
    is_flag(image, at) & (is_flag(image, at + 2) & is_flag(image, at + 3))
}

// The flags of each slot, the lease behind them too.
fn slots_flagged(image: &[u8]) -> bool
    requires { length image.now ≡ image_length }
    ensures { result ≡ all_of (slot_flags image.now) (row_at (λ i. i) slot_width 0 (slots + 1)) }
{
    (0..MAX_PB_SIZE + 1).all(|i| slot_flags(image, SLOT_WIDTH * i))
}

fn refps_flagged(image: &[u8]) -> bool
    requires { length image.now ≡ image_length }
    ensures { result ≡ all_of (is_flag image.now) (row_at (λ i. i) refp_width refp_place (2 * list_places)) }
{
    (0..REFP_PLACES).all(|i| is_flag(image, REFP_PLACE + REFP_WIDTH * i))
}

// Any bytes may be asked.
#[tactic(auto, unfolding(crate::specs::Image::is_image))]
pub fn is_image(image: &[u8]) -> bool
    ensures { result ≡ is_image image.now }
{
    image.len() == IMAGE_LENGTH && slots_flagged(image) && refps_flagged(image)
}
