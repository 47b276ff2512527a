// Commands: a line of words that stands for a call, `put 5 ref out` for one.
#![tactic(auto)]

ghost use Rattle.std.specs.Prelude.{◌≡◌};
ghost use Rattle.std.specs.List.{before_first, position};
ghost use Rattle.commands.specs.Expected.{expected_of};
ghost use Rattle.commands.specs.Words.{is_space, is_hash};
ghost use Rattle.commands.specs.Commands.{read_command, CommandFits};

pub mod draft;
pub mod numbers;

use draft::Draft;
use line::Call;

// What is expected where a line cannot be read: a word of a kind, the end of the line, or a shorter line.
#[derive(Clone, Copy, PartialEq, Eq)]
pub enum Expected {
    Command,
    First,
    Second,
    Slice,
    Number,
    Picture,
    PutPart,
    ListPart,
    Layer,
    Gap,
    Intra,
    Limit,
    End,
    ShorterLine,
}

// What is expected by its number. Any number past the last stands for the end of the line.
impl From<u8> for Expected {
    ghost from_gives = { λ number want. want ≡ expected_of number };

    fn from(number: u8) -> Self {
        match number {
            0 => Expected::Command,
            1 => Expected::First,
            2 => Expected::Second,
            3 => Expected::Slice,
            4 => Expected::Number,
            5 => Expected::Picture,
            6 => Expected::PutPart,
            7 => Expected::ListPart,
            8 => Expected::Layer,
            9 => Expected::Gap,
            10 => Expected::Intra,
            11 => Expected::Limit,
            13 => Expected::ShorterLine,
            _ => Expected::End,
        }
    }
}

fn is_space(c: u8) -> bool
    ensures { result ≡ is_space c }
{
    matches!(c, b' ' | b'\t' | b'\r')
}

fn comment_place(line: &[u8]) -> Option<usize>
    ensures { result ≡ position is_hash line.now }
{
    line.iter().position(|c| *c == b'#')
}

// A line up to the `#` that begins its comment.
fn before_comment(line: &[u8]) -> &[u8]
    ensures { result.now ≡ before_first is_hash line.now }
{
    match comment_place(line) {
        Some(end) => &line[..end],
        None => line,
    }
}

// What a line says, its characters given without the newline: nothing, a call, or what was expected in place of the first word that does not
// fit.
pub fn read_command(line: &[u8]) -> Result<Option<Call>, Expected>
    ensures is { result ≡ read_command line.now }
    ensures fits { CommandFits result }
{
    let mut draft = Draft::Command;
    for word in before_comment(line).split(|c| is_space(*c)) {
        if !word.is_empty() {
            draft = draft.step(word)?;
        }
    }
    draft.finish()
}
