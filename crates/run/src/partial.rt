// The line that is not finished yet between two pieces of the input. A call line has at most 26 characters, so 27 of a line are kept:
// one that is longer is bad whatever follows.
ghost use Rattle.std.specs.Prelude.{◌≡◌, ◌≤◌, ◌++◌, ◌==◌, [], length, take};
ghost use Rattle.line.specs.Calls.{read_line};
ghost use Rattle.run.specs.Partial.{kept_length};

use buffer::paste;
use line::Call;
use parsing::{LONGEST_LINE, read_line};
use std::marker::Model;

pub const KEPT: usize = LONGEST_LINE + 1;

// The characters that are kept, `len` of them at the front; `Copy`, so that a session may be kept and gone on from twice.
#[derive(Clone, Copy)]
pub struct Partial {
    bytes: [u8; KEPT],
    len: usize,
}

impl Model for Partial {
    ghost use Rattle.std.specs.Prelude.{◌≡◌, ◌≤◌, ◌++◌, length, take, drop};
    ghost use Rattle.std.proofs.Common.{arith, take-append-drop, length-take-le};
    ghost use Rattle.run.specs.Partial.{Kept, kept_length};

    ghost Value = { Kept };

    ghost view = { λ p. record { items = take p.len p.bytes; spare = drop p.len p.bytes } };

    ghost invariant = { λ p. (p.len ≤ kept_length) × (length p.bytes ≡ kept_length) };

    ghost inverse = { λ v. record { bytes = v.items ++ v.spare; len = length v.items } };

    ghost inverse_ok = { λ p h i. record {
      bytes = take-append-drop p.len p.bytes i;
      len = length-take-le p.len p.bytes (omega (arith, h.0, h.1)) i;
    } };
}

impl Partial {
    // No character yet.
    pub fn new() -> Partial
        ensures { result.items ≡ [] }
    {
        Partial {
            bytes: [0; KEPT],
            len: 0,
        }
    }

    pub fn is_empty(&self) -> bool
        ensures { result ≡ (length self.now.items == 0) }
    {
        self.len == 0
    }

    pub fn as_slice(&self) -> &[u8]
        ensures value { result.now ≡ self.now.items }
        ensures fits { length result.now ≤ kept_length }
    {
        &self.bytes[..self.len]
    }

    pub fn clear(&mut self)
        ensures { self.new.items ≡ [] }
    {
        self.len = 0;
    }
}

// More characters of the line, as far as they are kept.
pub fn extend(partial: &mut Partial, part: &[u8])
    ensures { partial.new.items ≡ take kept_length (partial.old.items ++ part.now) }
{
    let n = (KEPT - partial.len).min(part.len());
    paste(&mut partial.bytes, partial.len, part, n);
    partial.len += n;
}

// What the line says that ends behind these characters.
pub fn read_with(partial: &Partial, part: &[u8]) -> Option<Call>
    ensures { result ≡ read_line (partial.now.items ++ part.now) }
{
    if partial.is_empty() {
        return read_line(part);
    }
    let mut line = *partial;
    extend(&mut line, part);
    read_line(line.as_slice())
}
