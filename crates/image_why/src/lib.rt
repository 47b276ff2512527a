// The question why asked of an image: the bytes of a list call's line and a slot. The library's function for images is thin over it.
#![tactic(auto)]

ghost use Rattle.std.specs.Prelude.{◌≡◌, length};
ghost use Rattle.statuses.specs.Statuses.{status};
ghost use Rattle.image.specs.Image.{image_length, pm_of};
ghost use Rattle.reasons.specs.Reasons.{why};
ghost use Rattle.questions.specs.Asked.{reason_length, why_left, shown_why, why_of_image};

use def::{RefpCall, Refusal};
use explaining::evc_picman_why;
use image::is_image;
use image::reading::read_pm;
use questions::{REASON_LENGTH, question_in, show_why};

// A list request, of an image that was found to be one.
fn ask_image(image: &[u8], call: RefpCall, slot: u8, reason: &mut [u8]) -> Result<(), Refusal>
    requires { (length image.now ≡ image_length) × (length reason.old ≡ reason_length) }
    ensures { let pm = pm_of image.now in
        why_left (status result) reason.new ≡ shown_why (why pm call slot) reason.old }
{
    show_why(reason, evc_picman_why(&read_pm(image), call, slot))
}

// Of an image: the reason is written, or nothing is.
pub fn why_of_image(image: &[u8], call: &[u8], slot: u8, reason: &mut [u8]) -> Result<(), Refusal>
    ensures { why_left (status result) reason.new
        ≡ why_of_image image.now call.now slot reason.old }
{
    if !is_image(image) {
        return Err(Refusal::BadLine);
    }
    if reason.len() != REASON_LENGTH {
        return Err(Refusal::BadLine);
    }
    match question_in(call) {
        Some(lists) => ask_image(image, lists, slot, reason),
        None => Err(Refusal::BadLine),
    }
}
