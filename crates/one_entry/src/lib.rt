// The copy of one entry, given by its fields, into the lists of the running machine. It has to do with the lists alone.
#![tactic(auto)]

ghost use Rattle.std.specs.Prelude.{◌≡◌, ◌+◌, ◌*◌};
ghost use Rattle.keys.specs.Keys.{lists_in};
ghost use Rattle.refp.specs.Copy.{copy};
ghost use Rattle.statuses.specs.Statuses.{status};
ghost use Rattle.one_entry.specs.OneEntry.{entry_given, fits, rows_placed, EntryPlaced};

use def::Refusal;
use keys::{ROW, ROWS};

fn is_fit(rows: &[u32], present: u8, list_poc: &[u32]) -> bool
    ensures { result ≡ fits rows.now present list_poc.now }
{
    (rows.len() == ROWS) & (list_poc.len() == ROW) & (present < 2)
}

// Twice the buffer number plus the flag, as the rows have it.
fn head_from(present: u8, buf: u8) -> u32
    ensures { result ≡ 2 * buf + present }
{
    2 * u32::from(buf) + u32::from(present)
}

// Writes an entry at place `cnt` of list `lidx`. Where a size or the flag does not fit, it is a bad line.
pub fn place_entry(
    rows: &mut [u32],
    cnt: u64,
    lidx: u64,
    present: u8,
    buf: u8,
    poc: u32,
    list_poc: &[u32],
) -> Result<(), Refusal>
    ensures { let before = rows.old in
        let numbers = list_poc.now in
        let entry = entry_given present buf poc numbers in
        let placed = rows_placed before cnt lidx entry in
        let wanted = copy (lists_in before) cnt lidx entry in
        EntryPlaced (status result) (fits before present numbers) before rows.new placed wanted }
{
    if !is_fit(rows, present, list_poc) {
        return Err(Refusal::BadLine);
    }
    let numbers = list_poc.as_array::<ROW>().unwrap();
    let head = head_from(present, buf);
    adding::copy_refp(rows, cnt, lidx, head, poc, numbers)
}
