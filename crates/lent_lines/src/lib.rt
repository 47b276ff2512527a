// Answer lines read and call lines written on bytes that the caller lends, for the library's `picman_read_answer` and `picman_write_call`, so
// that a display needs no parser of its own. Where the record's size does not fit it gives 18 and writes nothing.
#![tactic(auto)]

ghost use Rattle.std.specs.Prelude.{◌≡◌, ◌≤◌};
ghost use Rattle.lent_lines.specs.LentLines.{lent_out, place_record, record_of, read_status, read_out};
ghost use Rattle.lent_lines.specs.LentLines.{written_length, written_word, wrote_out};

use def::{DONE, Refusal};
use line::{NO_MORE, Reply};
use reader::{BadLine, after_line, answer_at};
use writer::write_fields;

const RECORD_LENGTH: usize = 15;

// Seven field bytes, and a place in eight bytes, the highest first.
fn place_record(reply: Reply, next: usize) -> [u8; RECORD_LENGTH]
    ensures { result ≡ place_record reply next }
{
    let [v0, v1, v2, v3] = reply.value.to_be_bytes();
    let [n0, n1, n2, n3, n4, n5, n6, n7] = next.to_be_bytes();
    [
        reply.call,
        reply.status,
        reply.buf,
        v0,
        v1,
        v2,
        v3,
        n0,
        n1,
        n2,
        n3,
        n4,
        n5,
        n6,
        n7,
    ]
}

// The record of what the reader gave; where there is no answer its field bytes are zero.
fn record_of(read: Option<Result<Reply, BadLine>>, next: usize) -> [u8; RECORD_LENGTH]
    ensures { result ≡ record_of read next }
{
    let reply = match read {
        Some(Ok(reply)) => reply,
        Some(Err(_)) | None => Reply {
            call: 0,
            status: 0,
            buf: 0,
            value: 0,
        },
    };
    place_record(reply, next)
}

fn read_status(read: Option<Result<Reply, BadLine>>) -> u8
    ensures { result ≡ read_status read }
{
    match read {
        Some(Ok(_)) => DONE,
        Some(Err(_)) => u8::from(Refusal::BadLine),
        None => NO_MORE,
    }
}

/// The answer line that begins at a place of a buffer of lines. Writes its seven field bytes, zero where there is no answer, and where the
/// reader stands then: 0, 18 where it is no answer line, 41 hex where there is no more.
pub fn read_record(lines: &[u8], at: u64, out: &mut [u8]) -> u8
    ensures { lent_out result out.new ≡ read_out lines.now at out.old }
{
    if out.len() != RECORD_LENGTH {
        return u8::from(Refusal::BadLine);
    }
    let place = at as usize;
    let next = after_line(lines, place);
    let read = answer_at(lines, place);
    out.copy_from_slice(&record_of(read, next));
    read_status(read)
}

// The length of a line above a status of 0, or the refusal's number.
fn written_word(written: Result<usize, Refusal>) -> u32
    requires { written_length written ≤ 27 }
    ensures { result ≡ written_word written }
{
    match written {
        Ok(n) => n as u32 * 256 + DONE as u32,
        Err(why) => u8::from(why) as u32,
    }
}

/// Writes the line of a call, newline last, at the front of a buffer. Gives the line's length, newline counted, above a status of 0; 18 where
/// these are no call byte with its fields, and 20 where there is no room.
pub fn write_line(fields: &[u8], target: &mut [u8]) -> u32
    ensures { lent_out result target.new ≡ wrote_out fields.now target.old }
{
    written_word(write_fields(fields, target))
}
