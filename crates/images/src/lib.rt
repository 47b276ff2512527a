// Calls on a machine as the bytes of an image, for exchange and comparison: thin over the crates below, and no faster than they must be. A size or
// a flag byte that does not fit gives 18, and nothing is written. In the contracts `given` says, byte for byte, what is given and what the lent
// buffers hold then; `holds` says that the bytes are an image again, from which the next call reads the machine that this one left; `kept` says
// that a call that is turned down, with a refusal's number, leaves the image as it was.
#![tactic(auto)]

ghost use Rattle.std.specs.Prelude.{◌≡◌, length};
ghost use Rattle.statuses.specs.Statuses.{status};
ghost use Rattle.line.specs.Answers.{bad_line_reply};
ghost use Rattle.image.specs.Image.{image_length};
ghost use Rattle.machine.specs.Step.{step};
ghost use Rattle.exchange.specs.Lent.{bad_line, machine_of, ImageHolds};
ghost use Rattle.wire.specs.Wire.{answer_length, answer_bytes};
ghost use Rattle.images.specs.Called.{answered, replied, Renews, Answers};

use def::Refusal;
use exchange::{read_machine, write_machine};
use image::is_image;
use image::places::IMAGE_LENGTH;
use line::{BAD_LINE, Call, bad_line_reply};
use machine::fresh::new_machine;
use parsing::read_call;
use stepping::step;
use wire::{ANSWER_LENGTH, write_answer};

// Writes the new machine, whatever the image held.
pub fn renew_image(image: &mut [u8]) -> Result<(), Refusal>
    ensures { Renews (status result) image.old image.new }
{
    if image.len() != IMAGE_LENGTH {
        return Err(Refusal::BadLine);
    }
    write_machine(image, new_machine());
    Ok(())
}

// A good call on buffers that are what they must be.
fn answer_good(image: &mut [u8], call: Call, answer: &mut [u8]) -> u8
    requires { (length image.old ≡ image_length) × (length answer.old ≡ answer_length) }
    ensures given { let machine = machine_of image.old in
        answered result image.new answer.new ≡ replied (step machine call) }
    ensures holds { ImageHolds image.new (step (machine_of image.old) call).machine }
{
    let before = read_machine(image);
    let next = step(before, call);
    write_machine(image, next.machine);
    write_answer(answer, next.reply);
    next.reply.status
}

fn answer_bad(answer: &mut [u8]) -> u8
    requires { length answer.old ≡ answer_length }
    ensures { (result ≡ bad_line) × (answer.new ≡ answer_bytes bad_line_reply) }
{
    write_answer(answer, bad_line_reply());
    BAD_LINE
}

// One call: the bytes of a call line, check byte too, not in hex. Writes the answer and gives its status, which is the answer's own byte and also
// says that no picture comes.
pub fn call_image(image: &mut [u8], call: &[u8], answer: &mut [u8]) -> u8
    ensures { Answers result image.old call.now answer.old
        image.new answer.new }
{
    if !is_image(image) {
        return BAD_LINE;
    }
    if answer.len() != ANSWER_LENGTH {
        return BAD_LINE;
    }
    match read_call(call) {
        Some(good) => answer_good(image, good, answer),
        None => answer_bad(answer),
    }
}
