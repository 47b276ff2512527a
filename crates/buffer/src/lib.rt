// A buffer of lines: where a line ends, and bytes copied into one.
#![tactic(auto)]

ghost use Rattle.std.specs.Prelude.{◌≡◌, ◌+◌, ◌≤◌, length, position};
ghost use Rattle.std.proofs.Math.Seq.{paste};
ghost use Rattle.buffer.specs.Buffer.{is_newline, line_end};

// The first newline among bytes.
fn newline_in(bytes: &[u8]) -> Option<usize>
    ensures { result ≡ position is_newline bytes.now }
{
    bytes.iter().position(|&byte| byte == b'\n')
}

/// The place of the first newline from a place on, or the length where there is none.
pub fn line_end(buffer: &[u8], from: usize) -> usize
    requires { from ≤ length buffer.now }
    ensures { result ≡ line_end buffer.now from }
{
    match newline_in(&buffer[from..]) {
        Some(n) => from + n,
        None => buffer.len(),
    }
}

/// Writes the first `n` bytes of `src` into `dst` from a place on.
pub fn paste(dst: &mut [u8], at: usize, src: &[u8], n: usize)
    requires { (at + n ≤ length dst.old) × (n ≤ length src.now) }
    ensures { dst.new ≡ paste dst.old at src.now n }
{
    dst[at..at + n].copy_from_slice(&src[..n]);
}
