// Calls and answers: what a call line and an answer line are, and the fields that an answer shows. Every crate that reads, makes or answers a
// call has its types from here.
#![tactic(auto)]

ghost use Rattle.std.specs.Prelude.{◌≡◌};
ghost use Rattle.def.specs.Refusals.{number_in_use};
ghost use Rattle.line.specs.Answers.{no_buffer, reply, reply_of, bad_line_reply};

use def::{Answer, DONE, Refusal};

// Where there is no buffer number the line shows this.
pub const NO_BUFFER: u8 = 0xff;

// The status of a bad line, and what the library gives where a size does not fit.
pub const BAD_LINE: u8 = 18;

// The flags of a put are four bits.
pub const HIGHEST_FLAGS: u8 = 15;

// What a status is where a call was done and hands over no picture. Statuses and call bytes are bytes and no enum, since a reply that is read back
// may hold any.
pub const NOT_YET: u8 = 0x40;

pub const NO_MORE: u8 = 0x41;

// The call bytes, of call lines and of answers: the bytes of the lines that the C interface lends. A line's call byte and length together say
// which call it is, so they stand in slice patterns, in one table that reads lines (`parsing::call_in`) and one that writes them (`write_call`).
pub const INIT: u8 = 1;

pub const GET_EMPTY_PIC: u8 = 2;

pub const PUT_PIC: u8 = 3;

pub const OUT_PIC: u8 = 4;

pub const REFP_INIT: u8 = 5;

pub const POC_DERIVATION: u8 = 6;

// A call as its line has it. Fields keep their bytes: what a flag or a slice type means is decided at the call.
#[derive(Clone, Copy)]
pub enum Call {
    Init {
        max_pb_size: u8,
        max_num_ref_pics: u8,
    },
    GetEmptyPic,
    PutPic {
        flags: u8,
        poc: u32,
        temporal_id: u8,
        ref_pic_gap_length: u32,
    },
    OutPic,
    RefpInit {
        slice_type: u8,
        poc: u32,
        layer_id: u8,
        last_intra: u32,
        max_num_ref_pics: u8,
    },
    PocDerivation {
        log2_sub_gop_length: u8,
        tid: u8,
    },
}

// The fields of an answer line, without its check byte. They keep their bytes: an answer that is read back may hold any.
#[derive(Clone, Copy)]
pub struct Reply {
    pub call: u8,
    pub status: u8,
    pub buf: u8,
    pub value: u32,
}

impl Reply {
    // The fields of an answer that shows neither buffer number nor value.
    pub fn without_picture(call: u8, status: u8) -> Reply
        ensures { result ≡ reply call status no_buffer 0 }
    {
        Reply {
            call,
            status,
            buf: NO_BUFFER,
            value: 0,
        }
    }

    // Whether the call was turned down: its status is the number of a refusal.
    pub fn is_refused(&self) -> bool
        ensures { result ≡ number_in_use self.now.status }
    {
        Refusal::try_from(self.status).is_ok()
    }
}

// The reply to a bad line.
pub fn bad_line_reply() -> Reply
    ensures { result ≡ bad_line_reply }
{
    Reply::without_picture(0, BAD_LINE)
}

// A line's fields for an answer of the picture manager.
pub fn reply_of(call: u8, answer: Result<Answer, Refusal>) -> Reply
    ensures { result ≡ reply_of call answer }
{
    let done = Reply::without_picture(call, DONE);
    match answer {
        Ok(Answer::Done) => done,
        Ok(Answer::Picture(buf, value)) => Reply { buf, value, ..done },
        Ok(Answer::NotYet) => Reply::without_picture(call, NOT_YET),
        Ok(Answer::NoMore) => Reply::without_picture(call, NO_MORE),
        Ok(Answer::Counts(forward, backward)) => Reply {
            value: forward as u32 * 256 + backward as u32,
            ..done
        },
        Err(why) => Reply::without_picture(call, u8::from(why)),
    }
}
