// One slot by value becomes a key and a row. Any slot may come: one that breaks a rule by itself becomes a key that no whole
// state has.
ghost use Rattle.std.specs.Prelude.{◌≡◌, eqb, length};
ghost use Rattle.std.specs.List.{list_all};
ghost use Rattle.keys.specs.Keys.{rows_length};
ghost use Rattle.conversion.specs.Keyed.{slot_fits, TakenSlot};

use def::{MAX_PB, MAX_POC, Slot};
use keys::ROW;
use keys::key::key_of;
use keys::row::write_row;

// A key that stands for no picture and for no empty slot: the one test of the whole state refuses it, so no slot needs an answer of its own.
const STRAY: u64 = 2;

fn numbers_are_zero(list_poc: [u32; ROW]) -> bool
    ensures { result ≡ list_all (λ n. eqb n 0) list_poc }
{
    list_poc.iter().all(|number| *number == 0)
}

fn slot_fits(s: Slot) -> bool
    ensures { result ≡ slot_fits s }
{
    if s.present {
        return (s.pic.poc <= MAX_POC) & (s.buf < MAX_PB);
    }
    (s.buf == 0)
        & (s.pic.poc == 0)
        & !s.pic.is_ref
        & !s.pic.need_for_out
        & (s.pic.temporal_id == 0)
        & numbers_are_zero(s.pic.list_poc)
}

// A slot's list numbers go to the row of its buffer, and its key is given.
pub fn take_slot(s: Slot, rows: &mut [u32]) -> u64
    requires { length rows.old ≡ rows_length }
    ensures { TakenSlot s result rows.old rows.new }
{
    if !slot_fits(s) {
        return STRAY;
    }
    if !s.present {
        return 0;
    }
    let buf = s.buf as usize;
    let pic = s.pic;
    write_row(rows, buf, &pic.list_poc);
    key_of(pic.poc, pic.temporal_id, buf, pic.need_for_out, pic.is_ref)
}
