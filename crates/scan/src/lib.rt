// A good call line read where it stands in a buffer, by the fixed length of its kind: no search for the newline.
// The public function's `requires` is met by who has come to a place of the buffer.
#![tactic(auto)]

ghost use Rattle.std.specs.Prelude.{◌≡◌, ◌≤◌, length};
ghost use Rattle.line.specs.Lines.{call_at};
ghost use Rattle.scan.specs.Kinds.{line_length};

use line::Call;
use parsing::{LONGEST_LINE, read_line};

// What ends a line.
const NEWLINE: u8 = b'\n';

// How many digits the line of a kind has, by the second digit of its call byte; none is of another kind. The four lengths stand in
// `parsing::read_line` too, which goes by the length where this goes by the kind.
fn line_length(kind: u8) -> Option<usize>
    ensures { result ≡ line_length kind }
{
    match kind {
        b'2' | b'4' => Some(4),
        b'1' | b'6' => Some(8),
        b'3' => Some(24),
        b'5' => Some(LONGEST_LINE),
        _ => None,
    }
}

/// The good line that starts at a place and ends with its newline inside the buffer, and the place behind it.
pub fn read_line_at(buffer: &[u8], at: usize) -> Option<(Call, usize)>
    requires { at ≤ length buffer.now }
    ensures { result ≡ call_at buffer.now at }
{
    let rest = &buffer[at..];
    let [b'0', kind, ..] = *rest else {
        return None;
    };
    let end = line_length(kind)?;
    if rest.len() <= end || rest[end] != NEWLINE {
        return None;
    }
    let call = read_line(&rest[..end])?;
    Some((call, at + end + 1))
}
