// Searches and counts over the keys of the slots.
ghost use Rattle.std.specs.Prelude.{◌≡◌, position, count_by};
ghost use Rattle.keys.specs.Keys.{key_idle, key_empty, key_marked};
ghost use Rattle.store.specs.Highest.{highest_place};

use keys::key::{is_idle, is_marked, is_present};

// The first slot whose picture nobody needs, neither as a reference nor for output (the Rust's picman_get_empty_pic_from_list).
pub fn lowest_idle(keys: &[u64]) -> Option<usize>
    ensures { result ≡ position key_idle keys.now }
{
    keys.iter().position(|key| is_idle(*key))
}

// The highest empty slot.
pub fn highest_empty(keys: &[u64]) -> Option<usize>
    ensures { result ≡ highest_place key_empty keys.now }
{
    keys.iter().rposition(|key| !is_present(*key))
}

// A sum without a branch: `filter` and `count` take twice the time of marking's other steps.
pub fn count_marked(keys: &[u64]) -> usize
    ensures { result ≡ count_by key_marked keys.now }
{
    let mut marked = 0;
    for key in keys {
        marked += usize::from(is_marked(*key));
    }
    marked
}
