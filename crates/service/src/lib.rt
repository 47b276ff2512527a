// The program: calls from a reader, answers to a writer. The answers to the lines that a read completed are written before the next read.
// A read that a signal interrupts is repeated. A read or a write that fails is said on standard error, with the system's words, and ends
// the loop.
#![tactic(auto)]

ghost use Rattle.std.specs.Prelude.{◌≡◌, OnOk, IfSome};
ghost use Rattle.std.specs.Io.KnownBytes.{Appends};
ghost use Rattle.run.specs.Run.{program};
ghost use Rattle.conversation.specs.Pouring.{AppendsFront};
ghost use Rattle.service.specs.Calls.{new_run, answers_from};
ghost use Rattle.service.specs.Served.{Served, ServedNew};

use conversation::{Stop, Teller, converse};
use keys::{ROWS, SLOTS};
use run::{Session, new_session, run_end, run_piece};
use std::io::{self, Read, Write};
use std::marker::Model;

// What one read brings at most.
const PIECE: usize = 16384;

// Room for an answer to each byte of a piece, since each may be a newline.
const ANSWERS: usize = PIECE * 17;

// A run over the input: its machine as the lent arrays and the session, and the answers to the last piece, `len` bytes at
// the front of `out`. An array and a length, since `run_piece` writes into a lent slice of that room.
#[derive(Drop)]
pub struct CallTeller {
    keys: [u64; SLOTS],
    rows: [u32; ROWS],
    session: Session,
    out: [u8; ANSWERS],
    len: usize,
}

// The run, and what its last piece wrote.
impl Model for CallTeller {
    ghost use Rattle.std.specs.Prelude.{◌≡◌, ◌≤◌, ◌*◌, length, take};
    ghost use Rattle.run.specs.Run.{Fed};
    ghost use Rattle.run.specs.Session.{runner_in, SoundSession, answer_size};
    ghost use Rattle.service.specs.Calls.{piece_room};

    ghost Value = { Fed };

    ghost view = { λ c. record { runner = runner_in c.keys c.rows c.session; written = take c.len c.out } };

    ghost invariant = { λ c. SoundSession c.keys c.rows c.session × (length c.out ≡ answer_size * piece_room) × (c.len ≤ answer_size * piece_room) };
}

impl CallTeller {
    ghost use Rattle.std.specs.Prelude.{◌≡◌, []};
    ghost use Rattle.run.specs.Session.{runner_in, SoundSession};
    ghost use Rattle.service.specs.Calls.{new_run};

    // The new machine, before any line.
    pub fn new() -> CallTeller
        ensures { result ≡ new_run }
    {
        CallTeller::from_session([0; SLOTS], [0; ROWS], new_session())
    }

    // A run that goes on where another stands.
    pub fn from_session(keys: [u64; SLOTS], rows: [u32; ROWS], session: Session) -> CallTeller
        requires { SoundSession keys rows session }
        ensures { result ≡ record { runner = runner_in keys rows session; written = [] } }
    {
        CallTeller {
            keys,
            rows,
            session,
            out: [0; ANSWERS],
            len: 0,
        }
    }

    // Where the run stands.
    pub fn session(&self) -> (&[u64; SLOTS], &[u32; ROWS], &Session)
        ensures stands { runner_in result.0.now result.1.now result.2.now ≡ self.now.runner }
        ensures sound { SoundSession result.0.now result.1.now result.2.now }
    {
        (&self.keys, &self.rows, &self.session)
    }
}

impl Teller for CallTeller {
    ghost use Rattle.std.specs.Prelude.{[]};
    ghost use Rattle.service.specs.Calls.{piece_room, HearsCalls, EndsCalls, answers_from};
    ghost use Rattle.service.specs.Laws.{calls-hear-on, calls-end-so, room-is-some};

    ghost Hears = { HearsCalls };

    ghost Ends = { EndsCalls };

    ghost output = { λ s. s.written };

    ghost messages = { λ s. [] };

    ghost tells = { λ s rest. answers_from s.runner rest };

    ghost complains = { λ s rest. [] };

    ghost room = { piece_room };

    ghost some_room = { room-is-some };

    fn room() -> usize {
        PIECE
    }

    ghost hears_on = { calls-hear-on };

    ghost ends_so = { calls-end-so };

    fn hear(&mut self, piece: &[u8]) {
        let session = &mut self.session;
        self.len = run_piece(
            &mut self.keys,
            &mut self.rows,
            session,
            piece,
            &mut self.out,
        );
    }

    // A last line that lacks its newline is answered as if it had one.
    fn end(&mut self) {
        let last = &mut self.session;
        self.len = run_end(&mut self.keys, &mut self.rows, last, &mut self.out);
    }

    fn output(&self) -> &[u8] {
        &self.out[..self.len]
    }

    fn messages(&self) -> &[u8] {
        &[]
    }
}

// Answers every line of the input, those that a read completed before the next read, from where the run stands; `session` says where it
// stands then, and `output` what was given last.
pub fn serve_on<R: Read, W: Write>(
    rt: &impl Eprint,
    teller: &mut CallTeller,
    input: &mut R,
    output: &mut W,
) -> Result<(), Stop>
    ensures served { Served (R.remaining input.old) (R.remaining input.new) (W.contents output.old) (W.contents output.new)
        teller.old result teller.new }
    ensures all { OnOk result (IfSome (R.remaining input.old) (λ bytes.
        Appends (W.contents output.old) (W.contents output.new) (answers_from teller.old.runner bytes))) }
    ensures beginning { IfSome (R.remaining input.old) (λ bytes.
        AppendsFront (W.contents output.old) (W.contents output.new) (answers_from teller.old.runner bytes)) }
{
    let mut piece = [0u8; PIECE];
    let ended = converse(teller, &mut piece, input, output, &mut io::sink());
    if let Err(stop) = ended {
        let _ = eprintln!(rt; "picman: {stop}");
    }
    ended
}

// The same from the new machine.
pub fn serve<R: Read, W: Write>(rt: &impl Eprint, input: &mut R, output: &mut W) -> Result<(), Stop>
    ensures served { ServedNew (R.remaining input.old) (R.remaining input.new) (W.contents output.old) (W.contents output.new) result }
    ensures all { OnOk result (IfSome (R.remaining input.old) (λ bytes.
        Appends (W.contents output.old) (W.contents output.new) (program bytes))) }
    ensures beginning { IfSome (R.remaining input.old) (λ bytes.
        AppendsFront (W.contents output.old) (W.contents output.new) (program bytes)) }
{
    let mut teller = CallTeller::new();
    serve_on(rt, &mut teller, input, output)
}
