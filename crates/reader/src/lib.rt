// A reader of answer lines: it walks a lent buffer and remembers how far it has come. The functions on a slice and a position do the work and
// serve every caller that keeps its own position; the struct is thin over them.
#![tactic(auto)]

ghost use Rattle.std.specs.Prelude.{◌≡◌};
ghost use Rattle.reader.specs.Reading.{answer_at, after_line};

use answers::read_answer;
use buffer::line_end;
use line::Reply;

/// No answer line: refusal 18, with the place of the line's first byte, counted from 0.
#[derive(Clone, Copy)]
pub struct BadLine {
    pub at: usize,
}

/// The line that begins at a position; nothing at the end or past it.
pub fn answer_at(lines: &[u8], at: usize) -> Option<Result<Reply, BadLine>>
    ensures { result ≡ answer_at lines.now at }
{
    if lines.len() <= at {
        return None;
    }
    let end = line_end(lines, at);
    Some(read_answer(&lines[at..end]).ok_or(BadLine { at }))
}

/// Where the next line begins: behind the next newline, and at the end where there is none.
pub fn after_line(lines: &[u8], at: usize) -> usize
    ensures { result ≡ after_line lines.now at }
{
    if lines.len() <= at {
        return at;
    }
    let end = line_end(lines, at);
    if end < lines.len() {
        return end + 1;
    }
    end
}

#[derive(Drop)]
pub struct AnswerReader<'a> {
    pub lines: &'a [u8],
    pub at: usize,
}

impl<'a> AnswerReader<'a> {
    /// A reader at the start of a buffer.
    pub fn new(lines: &'a [u8]) -> AnswerReader<'a>
        ensures { (result.lines ≡ lines.entry) × (result.at ≡ 0) }
    {
        AnswerReader { lines, at: 0 }
    }
}

/// What stands where the reader stands; the reader moves on to the next line.
impl Iterator for AnswerReader<'_> {
    ghost use Rattle.std.specs.Prelude.{◌≡◌, ◌-◌, length};
    ghost use Rattle.std.specs.Iterator.{at_most};
    ghost use Rattle.reader.specs.Reading.{answer_at, after_line};

    type Item = Result<Reply, BadLine>;

    ghost next_gives = { λ before result after.
        (result ≡ answer_at before.lines.now before.at)
        × (after.lines ≡ before.lines)
        × (after.at ≡ after_line before.lines.now before.at) };

    ghost remaining = { λ reader. at_most (length reader.lines.now - reader.at) };

    fn next(&mut self) -> Option<Result<Reply, BadLine>> {
        let read = answer_at(self.lines, self.at);
        self.at = after_line(self.lines, self.at);
        read
    }
}
