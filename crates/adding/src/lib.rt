// The copy of one entry to a place of one list, on the running form. The entry point of crate `copying` and `one_entry` call this.
#![tactic(auto)]

ghost use Rattle.std.specs.Prelude.{◌≡◌, ◌+◌, ◌*◌, ◌≤◌, eqb, length, take, drop};
ghost use Rattle.seq.specs.Lists.{any_of};
ghost use Rattle.def.specs.State.{list_places};
ghost use Rattle.keys.specs.Keys.{rows_length, lists_in};
ghost use Rattle.refp.specs.Copy.{copy};
ghost use Rattle.refp.specs.Answers.{copy_answer};
ghost use Rattle.refp.specs.Running.{entry_with, rows_with_entry, CopyCame};

use def::{MAX_NUM_REF_PICS, REFP_NUM, Refusal};
use keys::{ENTRY_ROW, NUMBER_ROW, ROW};
use storing::write_head;

// Whether the number stands among the `n` entries from place `from` on.
fn number_stands(rows: &[u32], from: usize, n: usize, poc: u32) -> bool
    requires { (length rows.now ≡ rows_length) × (from + n ≤ list_places + list_places) }
    ensures { result ≡ any_of (λ e. eqb e.poc poc) (take n (drop from (lists_in rows.now))) }
{
    let first = ROW * NUMBER_ROW + from;
    rows[first..first + n].contains(&poc)
}

// An entry, given by its parts, goes to place `cnt` of one list unless its number stands among the first `cnt` entries there. `check_copy_refp`
// of crate `copying` is the same on an array of entries.
pub fn copy_refp(
    rows: &mut [u32],
    cnt: u64,
    lidx: u64,
    head: u32,
    poc: u32,
    numbers: &[u32; ROW],
) -> Result<(), Refusal>
    requires { length rows.old ≡ rows_length }
    ensures { let before = rows.old in
        let stored = rows_with_entry before (lidx * list_places + cnt) head poc numbers.now in
        let wanted = copy (lists_in before) cnt lidx (entry_with head poc numbers.now) in
        CopyCame (copy_answer result) before rows.new stored wanted }
{
    if MAX_NUM_REF_PICS as u64 <= cnt || REFP_NUM as u64 <= lidx {
        return Err(Refusal::NoSuchPlace);
    }
    let from = lidx as usize * ROW;
    let n = cnt as usize;
    if number_stands(rows, from, n, poc) {
        return Err(Refusal::SameNumber);
    }
    write_head(rows, from + n, head, poc);
    keys::row::write_row(rows, ENTRY_ROW + (from + n), numbers);
    Ok(())
}
