// Moves within the keys of the slots.
ghost use Rattle.std.specs.Prelude.{◌≡◌, ◌<◌, ◌-◌, length, get_or};
ghost use Rattle.seq.specs.Lists.{move_to, remove_at};

use std::mem;

// The key at `pos` goes to the last slot, and those above slide down one (the Rust's picman_move_pic).
pub fn move_last(keys: &mut [u64], pos: usize)
    requires { pos < length keys.old }
    ensures { keys.new ≡ move_to 0 pos (length keys.old - 1) keys.old }
{
    let moved = keys[pos];
    let last = keys.len() - 1;
    // Not by `rotate_left`, with which a get and a put of a reference took a tenth longer.
    for i in pos..last {
        keys[i] = keys[i + 1];
    }
    keys[last] = moved;
}

// The key at `pos` is taken out: those above slide down one, and the last slot empties (picman_remove_pic_from_pb).
pub fn remove_key(keys: &mut [u64], pos: usize) -> u64
    requires { pos < length keys.old }
    ensures taken { result ≡ get_or keys.old pos 0 }
    ensures left { keys.new ≡ remove_at 0 pos keys.old }
{
    let key = mem::replace(&mut keys[pos], 0);
    move_last(keys, pos);
    key
}
