// Entries of the reference lists stored in place on the rows of the running form: one by its head, one from a picture's key, those of a list of
// keys, and all of them dropped. Crates `filling` and `adding` call these.
#![tactic(auto)]

ghost use Rattle.std.specs.Prelude.{◌≡◌, ◌+◌, ◌*◌, ◌<◌, length, set};
ghost use Rattle.def.specs.State.{list_places};
ghost use Rattle.keys.specs.Keys.{row_length, head_row, number_row, rows_length, row_at, key_buffer, key_number};
ghost use Rattle.refp.specs.Running.{entry_with, HeldKey, EntryStored, Dropped, WriteRoom, Entered};

use keys::{ENTRY_ROW, HEAD_ROW, NUMBER_ROW, ROW};
use ordering::LAYER_UNIT;

// Flag and buffer number of the entry at place `j`, and its number.
pub fn write_head(rows: &mut [u32], j: usize, head: u32, poc: u32)
    requires { (length rows.old ≡ rows_length) × (j < list_places + list_places) }
    ensures { let headed = set rows.old (row_length * head_row + j) head in
        rows.new ≡ set headed (row_length * number_row + j) poc }
{
    rows[ROW * HEAD_ROW + j] = head;
    rows[ROW * NUMBER_ROW + j] = poc;
}

// The entry at place `j` takes the picture of a key.
fn write_entry(rows: &mut [u32], j: usize, key: u64)
    requires { (length rows.old ≡ rows_length) × (j < list_places + list_places) × HeldKey key }
    ensures { let entry = entry_with (2 * key_buffer key + 1) (key_number key) (row_at rows.old (key_buffer key)) in
        EntryStored rows.old rows.new j entry }
{
    let buf = keys::key::buffer_of(key);
    write_head(rows, j, 2 * (buf as u32) + 1, keys::key::number_of(key));
    keys::row::copy_row(rows, buf, ENTRY_ROW + j, ROW);
}

// The entries from place `from` on take the pictures of the list's keys.
pub fn write_entries(keys: &[u64], rows: &mut [u32], list: &[u64], from: usize)
    requires { WriteRoom keys.now rows.old list.now from }
    ensures { Entered keys.now list.now rows.old rows.new from }
{
    for (j, &key) in list.iter().enumerate() {
        let slot = (key % LAYER_UNIT) as usize;
        write_entry(rows, from + j, keys[slot]);
    }
}

// All entries lose flag and buffer number and keep the rest.
pub fn drop_entries(rows: &mut [u32])
    requires { length rows.old ≡ rows_length }
    ensures { Dropped rows.old rows.new }
{
    keys::row::clear_row(rows, HEAD_ROW);
    keys::row::clear_row(rows, HEAD_ROW + 1);
}
