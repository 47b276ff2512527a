// Words for answers: an answer line as a person would put it, or that it is none. Each as a text of its own, and put into a lent buffer: a text
// that is put together and then copied is read while it is just written, which costs a line up to three times its time.
#![tactic(auto)]

ghost use Rattle.std.specs.Prelude.{◌≡◌, ◌+◌, ◌≤◌, length};
ghost use Rattle.phrases.specs.Phrases.{Added};
ghost use Rattle.saying.specs.Words.{call_name, turned_down, done_words, status_words, answer_words, bad_line_words, said_line};

use answers::read_answer;
use line::{
    GET_EMPTY_PIC, INIT, NO_BUFFER, NO_MORE, NOT_YET, OUT_PIC, POC_DERIVATION, PUT_PIC, REFP_INIT,
    Reply,
};
use phrases::{Phrase, Sentence, add, add_number, push_number};
use showing::{add_counts, add_picture, add_signed, count_words, picture_words, signed_words};
use wording::status_word;

fn phrase(words: &str) -> Phrase
    requires { length words.now ≤ 60 }
    ensures { result.bytes ≡ words.now }
{
    let mut phrase = Phrase::new();
    phrase.push_str(words);
    phrase
}

// A call by its byte; 0 is a line that was no call.
#[tactic(auto, unfolding(crate::specs::Words::call_name))]
fn call_name(call: u8) -> Phrase
    ensures { result.bytes ≡ call_name call }
{
    match call {
        0 => phrase("line"),
        INIT => phrase("init"),
        GET_EMPTY_PIC => phrase("get"),
        PUT_PIC => phrase("put"),
        OUT_PIC => phrase("out"),
        REFP_INIT => phrase("lists"),
        POC_DERIVATION => phrase("derive"),
        other => {
            let mut name = phrase("call ");
            push_number(&mut name, u64::from(other));
            name
        }
    }
}

fn turned_down(status: u8) -> Phrase
    ensures { result.bytes ≡ turned_down status }
{
    let mut words = phrase("turned down, ");
    push_number(&mut words, u64::from(status));
    words.push_str(", ");
    words.push_str(status_word(status));
    words
}

// What an answer to a call that was done shows.
fn done_words(reply: Reply) -> Phrase
    ensures { result.bytes ≡ done_words reply }
{
    if reply.buf != NO_BUFFER {
        return picture_words(reply.buf, reply.value);
    }
    match reply.call {
        REFP_INIT => count_words(reply.value),
        POC_DERIVATION => signed_words(reply.value),
        _ => phrase("done"),
    }
}

#[tactic(auto, unfolding(crate::specs::Words::status_words))]
fn status_words(reply: Reply) -> Phrase
    ensures { result.bytes ≡ status_words reply }
{
    match reply.status {
        0 => done_words(reply),
        NOT_YET => phrase("not yet"),
        NO_MORE => phrase("no more"),
        refused => turned_down(refused),
    }
}

// The words of an answer, newline last.
#[tactic(auto, unfolding(crate::specs::Words::answer_words))]
pub fn say_answer(reply: Reply) -> Sentence
    ensures { result.bytes ≡ answer_words reply }
{
    let mut words = Sentence::new();
    words.push_str(call_name(reply.call).as_str());
    words.push_str(": ");
    words.push_str(status_words(reply).as_str());
    words.push_str("\n");
    words
}

#[tactic(auto, unfolding(crate::specs::Words::bad_line_words))]
fn bad_line_words(number: u64) -> Sentence
    ensures { result.bytes ≡ bad_line_words number }
{
    let mut words = Sentence::new();
    words.push_str("bad line ");
    push_number(&mut words, number);
    words.push_str(": no answer\n");
    words
}

// The words of a line with its number, given without its newline.
#[tactic(auto, unfolding(crate::specs::Words::said_line))]
pub fn say_line(line: &[u8], number: u64) -> Sentence
    ensures { result.bytes ≡ said_line number line.now }
{
    match read_answer(line) {
        Some(reply) => say_answer(reply),
        None => bad_line_words(number),
    }
}

#[tactic(auto, unfolding(crate::specs::Words::call_name), using(phrases::proofs::Adding::added_then))]
fn add_name(out: &mut [u8], at: usize, call: u8) -> usize
    requires { at + 25 ≤ length out.old }
    ensures added { Added out.old at (call_name call) result out.new }
    ensures short { result ≤ at + 25 }
{
    match call {
        0 => add(out, at, b"line"),
        INIT => add(out, at, b"init"),
        GET_EMPTY_PIC => add(out, at, b"get"),
        PUT_PIC => add(out, at, b"put"),
        OUT_PIC => add(out, at, b"out"),
        REFP_INIT => add(out, at, b"lists"),
        POC_DERIVATION => add(out, at, b"derive"),
        other => {
            let a = add(out, at, b"call ");
            add_number(out, a, u64::from(other))
        }
    }
}

fn add_turned_down(out: &mut [u8], at: usize, status: u8) -> usize
    requires { at + 60 ≤ length out.old }
    ensures added { Added out.old at (turned_down status) result out.new }
    ensures short { result ≤ at + 60 }
{
    let a = add(out, at, b"turned down, ");
    let b = add_number(out, a, u64::from(status));
    let c = add(out, b, b", ");
    add(out, c, status_word(status).as_bytes())
}

fn add_done(out: &mut [u8], at: usize, reply: Reply) -> usize
    requires { at + 60 ≤ length out.old }
    ensures added { Added out.old at (done_words reply) result out.new }
    ensures short { result ≤ at + 60 }
{
    if reply.buf != NO_BUFFER {
        return add_picture(out, at, reply.buf, reply.value);
    }
    match reply.call {
        REFP_INIT => add_counts(out, at, reply.value),
        POC_DERIVATION => add_signed(out, at, reply.value),
        _ => add(out, at, b"done"),
    }
}

#[tactic(auto, unfolding(crate::specs::Words::status_words), using(phrases::proofs::Adding::added_then))]
fn add_status(out: &mut [u8], at: usize, reply: Reply) -> usize
    requires { at + 60 ≤ length out.old }
    ensures added { Added out.old at (status_words reply) result out.new }
    ensures short { result ≤ at + 60 }
{
    match reply.status {
        0 => add_done(out, at, reply),
        NOT_YET => add(out, at, b"not yet"),
        NO_MORE => add(out, at, b"no more"),
        refused => add_turned_down(out, at, refused),
    }
}

// The words of an answer, newline last, at the front of a buffer; gives how many bytes they are.
pub fn put_answer(out: &mut [u8], reply: Reply) -> usize
    requires { 128 ≤ length out.old }
    ensures added { Added out.old 0 (answer_words reply) result out.new }
    ensures short { result ≤ 128 }
{
    let a = add_name(out, 0, reply.call);
    let b = add(out, a, b": ");
    let c = add_status(out, b, reply);
    add(out, c, b"\n")
}

fn put_bad(out: &mut [u8], number: u64) -> usize
    requires { 128 ≤ length out.old }
    ensures added { Added out.old 0 (bad_line_words number) result out.new }
    ensures short { result ≤ 128 }
{
    let a = add(out, 0, b"bad line ");
    let b = add_number(out, a, number);
    add(out, b, b": no answer\n")
}

// The words of a line with its number, given without its newline, at the front of a buffer; gives how many bytes they are.
#[tactic(auto, unfolding(crate::specs::Words::said_line), using(phrases::proofs::Adding::added_then))]
pub fn put_line(out: &mut [u8], line: &[u8], number: u64) -> usize
    requires { 128 ≤ length out.old }
    ensures added { Added out.old 0 (said_line number line.now) result out.new }
    ensures short { result ≤ 128 }
{
    match read_answer(line) {
        Some(reply) => put_answer(out, reply),
        None => put_bad(out, number),
    }
}
