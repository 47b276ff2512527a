// A run over the input, piece by piece: each complete line is read, its call made, and its answer written behind the others.
// `program` in specs/Run.antt is what a run writes for a whole input; `run-writes` in specs/Claims.antt says that every way of cutting the
// input into pieces comes to it.
#![tactic(auto)]

pub mod partial;

ghost use Rattle.std.specs.Prelude.{◌≡◌, ◌≤◌, length};
ghost use Rattle.machine.specs.Step.{step_line};
ghost use Rattle.machine.specs.Running.{machine_in, Runs, Makes};
ghost use Rattle.run.specs.Session.{next_at, NewSession, RunRoom, RanOver, EndRoom, EndedOver};

use buffer::line_end;
use line::{Call, Reply, bad_line_reply};
use machine::Scalars;
use machine::fresh::new_scalars;
use making::make_call;
use partial::{Partial, extend, read_with};
use replies::write_reply;
use scan::read_line_at;

// What goes from piece to piece beside the lent arrays: the machine's scalars, and the line that is not finished yet.
#[derive(Clone, Copy)]
pub struct Session {
    pub scalars: Scalars,
    pub partial: Partial,
}

// By a search for the newline: any line, and one that a piece before this one began.
fn searched_line(partial: &Partial, piece: &[u8], at: usize) -> Option<(Option<Call>, usize)>
    requires { at ≤ length piece.now }
    ensures { result ≡ next_at partial.now.items piece.now at }
{
    let end = line_end(piece, at);
    if piece.len() <= end {
        return None;
    }
    Some((read_with(partial, &piece[at..end]), end + 1))
}

// The next line, if it ends inside the piece: what it says, and the place behind its newline. A good line that stands whole in the piece is
// read by its length; anything else takes the longer way.
fn next_line(partial: &Partial, piece: &[u8], at: usize) -> Option<(Option<Call>, usize)>
    requires { at ≤ length piece.now }
    ensures { result ≡ next_at partial.now.items piece.now at }
{
    if !partial.is_empty() {
        return searched_line(partial, piece, at);
    }
    match read_line_at(piece, at) {
        Some((call, next)) => Some((Some(call), next)),
        None => searched_line(partial, piece, at),
    }
}

// What a line does; a bad one changes nothing.
fn answer_line(keys: &mut [u64], rows: &mut [u32], s: &mut Scalars, line: Option<Call>) -> Reply
    requires { Runs keys.old rows.old s.old }
    ensures { let m = machine_in keys.old rows.old s.old in
        Makes result s.new s.old keys.old rows.old keys.new rows.new (step_line m line) }
{
    match line {
        Some(call) => make_call(keys, rows, s, call),
        None => bad_line_reply(),
    }
}

// Answers each complete line of a piece, one behind the other in `out`; what stands behind the last newline waits for the next piece. Gives how
// many bytes of answers were written.
pub fn run_piece(
    keys: &mut [u64],
    rows: &mut [u32],
    session: &mut Session,
    piece: &[u8],
    out: &mut [u8],
) -> usize
    requires { RunRoom keys.old rows.old session.old piece.now out.old }
    ensures { RanOver keys.old rows.old session.old piece.now out.old session.new result
        keys.new rows.new out.new }
{
    let mut at = 0;
    let mut len = 0;
    while let Some((line, next)) = next_line(&session.partial, piece, at) {
        let reply = answer_line(keys, rows, &mut session.scalars, line);
        len = write_reply(out, len, reply);
        session.partial.clear();
        at = next;
    }
    extend(&mut session.partial, &piece[at..]);
    len
}

// The session at the start: no line yet, and the scalars of the new machine, whose keys and rows are all zero.
pub fn new_session() -> Session
    ensures { NewSession result }
{
    Session {
        scalars: new_scalars(),
        partial: Partial::new(),
    }
}

// At the end of the input: answers a last line that lacks its newline, as if it had one.
pub fn run_end(keys: &mut [u64], rows: &mut [u32], session: &mut Session, out: &mut [u8]) -> usize
    requires { EndRoom keys.old rows.old session.old out.old }
    ensures { EndedOver keys.old rows.old session.old out.old session.new result
        keys.new rows.new out.new }
{
    if session.partial.is_empty() {
        return 0;
    }
    run_piece(keys, rows, session, b"\n", out)
}
