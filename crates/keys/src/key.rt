// One key: number * 2^16 + layer * 2^8 + buffer * 2^3 + wanted * 4 + marked * 2 + 1, and 0 for an empty slot.
// The tests are written by division, in the nesting of their definitions: they compile to one mask and compare. A key stays a plain number: a
// newtype crosses to C as well, but the contracts speak of the numbers that `include/picman.h` lays out, and would take each out of it first.
ghost use Rattle.std.specs.Prelude.{◌≡◌, ◌<◌, ◌≤◌};
ghost use Rattle.keys.specs.Keys.{key_present, key_marked, key_wanted, key_idle, key_buffer, key_layer, key_number, key_unmarked, key_made};

pub fn is_present(key: u64) -> bool
    ensures { result ≡ key_present key }
{
    key % 2 == 1
}

pub fn is_marked(key: u64) -> bool
    ensures { result ≡ key_marked key }
{
    (key % 2 == 1) & (key / 2 % 2 == 1)
}

pub fn is_wanted(key: u64) -> bool
    ensures { result ≡ key_wanted key }
{
    (key % 2 == 1) & (key / 4 % 2 == 1)
}

pub fn is_idle(key: u64) -> bool
    ensures { result ≡ key_idle key }
{
    (key % 2 == 1) & (!(key / 2 % 2 == 1) & !(key / 4 % 2 == 1))
}

pub fn buffer_of(key: u64) -> usize
    ensures { (result ≡ key_buffer key) × (result < 32) }
{
    (key / 8 % 32) as usize
}

pub fn buffer_byte(key: u64) -> u8
    ensures { result ≡ key_buffer key }
{
    (key / 8 % 32) as u8
}

pub fn layer_of(key: u64) -> u8
    ensures { result ≡ key_layer key }
{
    (key / 256 % 256) as u8
}

// The number of a key of a whole state.
pub fn number_of(key: u64) -> u32
    requires { key_number key ≤ 2147483647 }
    ensures { result ≡ key_number key }
{
    (key / 65536) as u32
}

pub fn unmarked(key: u64) -> u64
    ensures { result ≡ key_unmarked key }
{
    key - key / 2 % 2 * 2
}

// The key of a picture.
pub fn key_of(poc: u32, layer: u8, buf: usize, wanted: bool, marked: bool) -> u64
    requires { buf < 32 }
    ensures { result ≡ key_made poc layer buf wanted marked }
{
    (poc as u64) * 65536
        + (layer as u64) * 256
        + (buf as u64) * 8
        + (wanted as u64) * 4
        + (marked as u64) * 2
        + 1
}
