// The smallest buffer number that no slot holds.
ghost use Rattle.std.specs.Prelude.{◌≡◌, not, length, position};
ghost use Rattle.def.specs.State.{slots};
ghost use Rattle.keys.specs.Keys.{key_buffers};
ghost use Rattle.store.specs.FreeBuffer.{key_free, Held};

use keys::key::{buffer_of, is_present};

// As many buffer numbers as a key can name.
const BUFFERS: usize = 32;

// Of each buffer number, whether a slot holds it.
fn held_buffers(keys: &[u64]) -> [bool; BUFFERS]
    requires { length keys.now ≡ slots }
    ensures { Held (key_buffers keys.now) result }
{
    let mut held = [false; BUFFERS];
    for key in keys {
        let b = buffer_of(*key);
        held[b] |= is_present(*key);
    }
    held
}

fn lowest_free(held: &[bool; BUFFERS]) -> Option<usize>
    ensures { result ≡ position not held.now }
{
    held.iter().position(|is_held| !*is_held)
}

// At most 27 of the 32 numbers are held.
pub fn free_buffer(keys: &[u64]) -> usize
    requires { length keys.now ≡ slots }
    ensures { result ≡ key_free keys.now }
{
    let held = held_buffers(keys);
    lowest_free(&held).unwrap()
}
