// The running form of the picture manager: a slot is one number, a key, and the list numbers of a picture stay in a row under its buffer
// number, as the original moves pointers and not pictures. The list entries are rows of the same array. `stands` in specs/Keys.antt says
// which state keys, rows and the rest stand for; every call of the core is stated through it.
// The slots stay packed, and keys and rows are slices of numbers, because the C interface lends them so: `include/picman.h` fixes their layout, their
// lengths are tested once, and slots of `Option` would have to be unpacked and packed again in each call (`bench/unpacked` times that).
#![tactic(auto)]

pub mod key;
pub mod row;

use def::{MAX_NUM_REF_PICS, MAX_PB_SIZE, REFP_PLACES};

// Slots of the store.
pub const SLOTS: usize = MAX_PB_SIZE;

// Numbers in a row.
pub const ROW: usize = MAX_NUM_REF_PICS;

// Entries of both lists, forward first.
pub const PLACES: usize = REFP_PLACES;

// The rows, by their first ones: of the buffers; the flags and buffer numbers of the entries, a row for each list; their numbers, likewise;
// and the list numbers of each entry.
pub const HEAD_ROW: usize = SLOTS;

pub const NUMBER_ROW: usize = HEAD_ROW + 2;

pub const ENTRY_ROW: usize = NUMBER_ROW + 2;

// All rows, as one array.
pub const ROWS: usize = (ENTRY_ROW + PLACES) * ROW;

// What is left of the state beside the slots and the rows; `lease` is a key.
#[derive(Clone, Copy)]
pub struct Rest {
    pub lease: u64,
    pub max_pb_size: u8,
    pub max_num_ref_pics: u8,
    pub cur_pb_size: u8,
    pub cur_num_ref_pics: u8,
    pub num_refp_0: u8,
    pub num_refp_1: u8,
    pub poc_next_output: u32,
    pub poc_increase: u8,
}
