// What a caller's slices are tested for before anything is read in them. They come apart, as C lends them; a struct of three `&mut` has no view as
// one value, and each contract would name the three again.
#![tactic(auto)]

ghost use Rattle.std.specs.Prelude.{◌≡◌};
ghost use Rattle.machine.specs.Lent.{slices, sized};

use keys::{ROWS, SLOTS};
use registers::REGISTERS;

pub fn is_sized(keys: &[u64], rows: &[u32], registers: &[u32]) -> bool
    ensures { result ≡ sized (slices keys.now rows.now registers.now) }
{
    (keys.len() == SLOTS) & (rows.len() == ROWS) & (registers.len() == REGISTERS)
}
