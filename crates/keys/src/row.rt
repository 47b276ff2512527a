// Rows of the one array of numbers.
ghost use Rattle.std.specs.Prelude.{◌≡◌, ◌*◌, ◌<◌, ◌≤◌, length, replicate};
ghost use Rattle.std.proofs.Math.Seq.{paste};
ghost use Rattle.keys.specs.Keys.{row_count, rows_length, row_length, row_at};

use crate::ROW;

// The first `n` numbers of row `from` go to the front of another row. From one part of the rows to the other, which the compiler makes wide moves of
// where `n` is known; `copy_within` moves number by number and took up to half as long again in a list call.
pub fn copy_row(rows: &mut [u32], from: usize, to: usize, n: usize)
    requires { (length rows.old ≡ rows_length) × (from < row_count) × (to < row_count) × (from ≡ to → ⊥) × (n ≤ row_length) }
    ensures { rows.new ≡ paste rows.old (row_length * to) (row_at rows.old from) n }
{
    if from < to {
        let (front, back) = rows.split_at_mut(ROW * to);
        back[..n].copy_from_slice(&front[ROW * from..ROW * from + n]);
    } else {
        let (front, back) = rows.split_at_mut(ROW * from);
        front[ROW * to..ROW * to + n].copy_from_slice(&back[..n]);
    }
}

// A row all zero.
pub fn clear_row(rows: &mut [u32], to: usize)
    requires { (length rows.old ≡ rows_length) × (to < row_count) }
    ensures { rows.new ≡ paste rows.old (row_length * to) (replicate row_length 0) row_length }
{
    rows[ROW * to..ROW * to + ROW].fill(0);
}

// A row by value, written.
pub fn write_row(rows: &mut [u32], to: usize, numbers: &[u32; ROW])
    requires { (length rows.old ≡ rows_length) × (to < row_count) }
    ensures { rows.new ≡ paste rows.old (row_length * to) numbers.now row_length }
{
    rows[ROW * to..ROW * to + ROW].copy_from_slice(numbers);
}

// A row by value, read.
#[tactic(auto, unfolding(crate::specs::Keys::row_at))]
pub fn read_row(rows: &[u32], from: usize) -> [u32; ROW]
    requires { (length rows.now ≡ rows_length) × (from < row_count) }
    ensures { result ≡ row_at rows.now from }
{
    let mut numbers = [0; ROW];
    numbers.copy_from_slice(&rows[ROW * from..ROW * from + ROW]);
    numbers
}
