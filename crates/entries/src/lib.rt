// The two lists by value and as rows. Any entries may come. What is required is the length of the rows, which every caller makes.
#![tactic(auto)]

ghost use Rattle.std.specs.Prelude.{◌≡◌, ◌<◌, length};
ghost use Rattle.keys.specs.Keys.{rows_length, head_of, entry_at, lists_in};
ghost use Rattle.refp.specs.Running.{EntryStored};
ghost use Rattle.entries.specs.Entries.{places, ListsTaken};

use def::{EvcRefP, REFP_PLACES};
use keys::row::{read_row, write_row};
use keys::{ENTRY_ROW, HEAD_ROW, NUMBER_ROW, ROW};
use std::array;

// Flag and buffer number of an entry, as one number.
pub fn head_of(entry: EvcRefP) -> u32
    ensures { result ≡ head_of entry }
{
    2 * u32::from(entry.buf) + u32::from(entry.present)
}

// An entry stands in three places of the rows, so neither this nor `entry_of` is a conversion of one value.
fn take_entry(entry: EvcRefP, j: usize, rows: &mut [u32])
    requires { (length rows.old ≡ rows_length) × (j < places) }
    ensures { EntryStored rows.old rows.new j entry }
{
    rows[ROW * HEAD_ROW + j] = head_of(entry);
    rows[ROW * NUMBER_ROW + j] = entry.poc;
    write_row(rows, ENTRY_ROW + j, &entry.list_poc);
}

pub fn take_lists(refp: &[EvcRefP; REFP_PLACES], rows: &mut [u32])
    requires { length rows.old ≡ rows_length }
    ensures { ListsTaken refp.now rows.new }
{
    for (j, entry) in refp.iter().enumerate() {
        take_entry(*entry, j, rows);
    }
}

fn entry_of(rows: &[u32], j: usize) -> EvcRefP
    requires { (length rows.now ≡ rows_length) × (j < places) }
    ensures { result ≡ entry_at rows.now j }
{
    let head = rows[ROW * HEAD_ROW + j];
    EvcRefP {
        present: head % 2 == 1,
        buf: (head / 2 % 256) as u8,
        poc: rows[ROW * NUMBER_ROW + j],
        list_poc: read_row(rows, ENTRY_ROW + j),
    }
}

pub fn put_lists(rows: &[u32]) -> [EvcRefP; REFP_PLACES]
    requires { length rows.now ≡ rows_length }
    ensures { result ≡ lists_in rows.now }
{
    array::from_fn(
        |j|
            requires { (length rows.now ≡ rows_length) × (j < places) }
        { entry_of(rows, j) },
    )
}
