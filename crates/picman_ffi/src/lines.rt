// Answer lines read and call lines written for C and Rust: crate `lent_lines` under the library's names.
ghost use Rattle.std.specs.Prelude.{◌≡◌};
ghost use Rattle.lent_lines.specs.LentLines.{lent_out, read_out, wrote_out};

use lent_lines::{read_record, write_line};

// The answer line that begins at a place of a buffer of lines, and where the next one begins.
#[unsafe(no_mangle)]
pub extern "C" fn picman_read_answer(lines: &[u8], at: u64, out: &mut [u8]) -> u8
    ensures { lent_out result out.new ≡ read_out lines.now at out.old }
{
    read_record(lines, at, out)
}

// Writes the line of a call, newline last, at the front of a buffer: the status in bits 0 to 7, the line's length in the bits above.
#[unsafe(no_mangle)]
pub extern "C" fn picman_write_call(fields: &[u8], target: &mut [u8]) -> u32
    ensures { lent_out result target.new ≡ wrote_out fields.now target.old }
{
    write_line(fields, target)
}
