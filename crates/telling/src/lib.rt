// Lines told one by one as their bytes come: commands as call lines, or answers as words. A byte that ends a line has its texts
// put behind those of the lines before, so what stands in the buffers after a piece of the input is what its lines give.
#![tactic(auto)]

ghost use Rattle.std.specs.Prelude.{ℕ, ◌≤◌, ◌≡◌, List, [], length, take};
ghost use Rattle.buffer.specs.Buffer.{newline};
ghost use Rattle.asking.specs.Asked.{Texts, texts};
ghost use Rattle.telling.specs.Telling.{most, kept, Wrote, speaker, fed, new_telling, kept_more, HasRoom};
ghost use Rattle.telling.specs.Telling.{Gives, GivesPiece, PieceRoom, ToldPiece, piece_room};

use arrayvec::ArrayVec;
use asking::{LONGEST, ask_line};
use conversation::Teller;
use phrases::add;
use saying::put_line;
use std::marker::{Model, PhantomData};

// What one read brings at most.
pub const PIECE: usize = 1024;

// One character more than a line may have is kept of it: then it is too long, whatever follows.
pub const KEPT: usize = LONGEST + 1;

// No line gives more bytes.
pub const MOST: usize = 128;

// Room for what a line gives for each byte, since each may be a newline.
const TEXTS: usize = PIECE * MOST;

// How many bytes a line gives to the output, and to the messages.
#[derive(Clone, Copy)]
pub struct Told {
    pub out: usize,
    pub err: usize,
}

// What the lines are.
pub trait Lines {
    // What a line with its number gives.
    ghost told: { ℕ → List ℕ → Texts };

    // A line with its number, given without its newline: its texts at the fronts of the buffers.
    fn tell(out: &mut [u8], err: &mut [u8], line: &[u8], number: u64) -> Told
        requires { (most ≤ length out.old) × (most ≤ length err.old) }
        ensures { let texts = told number line.now in
            Wrote out.old err.old texts result.out result.err out.new err.new };

    // Of a line no more counts than what is kept of it.
    ghost kept_tells: { (number : ℕ) (line : List ℕ) → told number (take kept line) ≡ told number line };
}

// Commands, told as the lines of their calls.
#[derive(Clone, Copy)]
pub struct Commands;

impl Lines for Commands {
    ghost use Rattle.asking.specs.Asked.{asked};
    ghost use Rattle.telling.specs.Laws.{asked-kept};

    ghost told = { asked };

    ghost kept_tells = { asked-kept };

    fn tell(out: &mut [u8], err: &mut [u8], line: &[u8], number: u64) -> Told {
        match ask_line(line, number) {
            Ok(Some(call)) => Told {
                out: add(out, 0, call.as_slice()),
                err: 0,
            },
            Ok(None) => Told { out: 0, err: 0 },
            Err(message) => Told {
                out: 0,
                err: add(err, 0, message.as_str().as_bytes()),
            },
        }
    }
}

// Answer lines, told in words.
#[derive(Clone, Copy)]
pub struct Answers;

impl Lines for Answers {
    ghost use Rattle.telling.specs.Told.{said};
    ghost use Rattle.telling.specs.Laws.{said-kept};

    ghost told = { said };

    ghost kept_tells = { said-kept };

    fn tell(out: &mut [u8], _err: &mut [u8], line: &[u8], number: u64) -> Told {
        Told {
            out: put_line(out, line, number),
            err: 0,
        }
    }
}

// What is kept of the line that is not finished, and its number; and what the last piece, or its last part, gave, at the fronts of the two buffers, which are
// arrays, since what a line gives is written into the rest of them.
#[derive(Drop)]
pub struct LineTeller<L> {
    held: ArrayVec<u8, KEPT>,
    number: u64,
    out: [u8; TEXTS],
    err: [u8; TEXTS],
    told: Told,
    lines: PhantomData<L>,
}

impl<L> Model for LineTeller<L> {
    ghost use Rattle.std.specs.Prelude.{◌≤◌, ◌*◌, take};
    ghost use Rattle.asking.specs.Asked.{texts};
    ghost use Rattle.telling.specs.Telling.{most, piece_room, Fed, fed, speaker};

    ghost Value = { Fed };

    ghost view = { λ l. fed (speaker l.held.items l.number) (texts (take l.told.out l.out) (take l.told.err l.err)) };

    ghost invariant = { λ l. (l.told.out ≤ most * piece_room) × (l.told.err ≤ most * piece_room) };
}

impl<L: Lines> LineTeller<L> {
    // The first line has number 1.
    pub fn new() -> LineTeller<L>
        ensures { result ≡ new_telling }
    {
        LineTeller {
            held: ArrayVec::new(),
            number: 1,
            out: [0; TEXTS],
            err: [0; TEXTS],
            told: Told { out: 0, err: 0 },
            lines: PhantomData,
        }
    }

    // Goes on within a line: the characters of it so far, and its number.
    pub fn from_line(line: &[u8], number: u64) -> LineTeller<L>
        ensures { result ≡ fed (speaker (take kept line.now) number) (texts [] []) }
    {
        let mut teller = LineTeller::<L>::new();
        teller.number = number;
        for c in line {
            teller.keep(*c);
        }
        teller
    }

    // What is kept of the line that is not finished, and its number.
    pub fn line(&self) -> (&[u8], u64)
        ensures stands { speaker result.0.now result.1 ≡ self.now.speaker }
        ensures keeps { length result.0.now ≤ kept }
    {
        (self.held.as_slice(), self.number)
    }

    // One more character of the line.
    fn keep(&mut self, c: u8)
        ensures { self.new ≡ kept_more self.old c }
    {
        if self.held.len() < KEPT {
            self.held.push(c);
        }
    }

    // The line has ended: its texts go behind what stands in the buffers.
    fn end_line(&mut self)
        requires { HasRoom self.old }
        ensures { Gives L.told self.old newline self.new }
    {
        let told = L::tell(
            &mut self.out[self.told.out..],
            &mut self.err[self.told.err..],
            self.held.as_slice(),
            self.number,
        );
        self.told.out += told.out;
        self.told.err += told.err;
        self.held.clear();
        self.number = self.number.wrapping_add(1);
    }

    // One more byte of the input.
    fn take_byte(&mut self, c: u8)
        requires { HasRoom self.old }
        ensures { Gives L.told self.old c self.new }
    {
        if c == b'\n' {
            self.end_line();
        } else {
            self.keep(c);
        }
    }

    // The bytes of a piece of the input.
    fn take_piece(&mut self, piece: &[u8])
        requires { length piece.now ≤ piece_room }
        ensures { GivesPiece L.told self.old piece.now self.new }
    {
        self.told = Told { out: 0, err: 0 };
        for c in piece {
            self.take_byte(*c);
        }
    }
}

impl<L: Lines> Teller for LineTeller<L> {
    ghost use Rattle.telling.specs.Telling.{HearsLines, EndsLines, gives, piece_room};
    ghost use Rattle.telling.specs.Laws.{lines-hear-on, lines-end-so, room-is-some};

    ghost Hears = { HearsLines L.told };

    ghost Ends = { EndsLines L.told };

    ghost output = { λ s. s.texts.out };

    ghost messages = { λ s. s.texts.err };

    ghost tells = { λ s rest. (gives L.told s.speaker rest).out };

    ghost complains = { λ s rest. (gives L.told s.speaker rest).err };

    ghost room = { piece_room };

    ghost some_room = { room-is-some };

    fn room() -> usize {
        PIECE
    }

    ghost hears_on = { lines-hear-on L.told };

    ghost ends_so = { lines-end-so L.told };

    fn hear(&mut self, piece: &[u8]) {
        self.take_piece(piece);
    }

    // A last line that lacks its newline is told as if it had one.
    fn end(&mut self) {
        self.told = Told { out: 0, err: 0 };
        if !self.held.is_empty() {
            self.end_line();
        }
    }

    fn output(&self) -> &[u8] {
        &self.out[..self.told.out]
    }

    fn messages(&self) -> &[u8] {
        &self.err[..self.told.err]
    }
}

// A piece of the input of any length, in parts that a teller may hear; the buffers have room for what a line gives for each byte.
pub fn tell_piece<L: Lines>(
    teller: &mut LineTeller<L>,
    piece: &[u8],
    out: &mut [u8],
    err: &mut [u8],
) -> Told
    requires { PieceRoom piece.now out.old err.old }
    ensures { ToldPiece L.told teller.old.speaker piece.now out.old err.old
        result.out result.err teller.new.speaker out.new err.new }
{
    let mut told = Told { out: 0, err: 0 };
    for part in piece.chunks(PIECE) {
        teller.take_piece(part);
        told.out = add(out, told.out, teller.output());
        told.err = add(err, told.err, teller.messages());
    }
    told
}
