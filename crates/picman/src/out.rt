// Out: the lowest slot wanted for output whose number is due is handed over.
ghost use Rattle.std.specs.Prelude.{◌≡◌, List, ℕ, ◌<◌, ◌≤◌, length, get_or, set, Ok};
ghost use Rattle.def.specs.State.{slots, highest_poc};
ghost use Rattle.keys.specs.Keys.{key_number, key_handed_over, rows_length, stands};
ghost use Rattle.picman.specs.Out.{out_whole};
ghost use Rattle.picman.specs.Results.{out_answer};
ghost use Rattle.picman.specs.OnKeys.{due_place, key_shown, with_output_of, NumbersFit, Calls};

use crate::{NoMoreOutput, Shown};
use keys::key::{buffer_byte, is_wanted, number_of};
use keys::{Rest, SLOTS};

// The lowest slot that is due, if there is one; no more where no picture is wanted. One walk, since a second one would cost as much again.
fn due_place(keys: &[u64], poc_next_output: u32) -> Result<Option<usize>, NoMoreOutput>
    requires { length keys.now ≡ slots }
    ensures { result ≡ due_place poc_next_output keys.now }
{
    let next = poc_next_output as u64;
    let mut wanted = false;
    // By places, of which there are always as many: over `keys.iter().enumerate()` an out took a tenth longer and more.
    for i in 0..SLOTS {
        if is_wanted(keys[i]) {
            if keys[i] / 65536 <= next {
                return Ok(Some(i));
            }
            wanted = true;
        }
    }
    if wanted { Ok(None) } else { Err(NoMoreOutput) }
}

fn handed_over(key: u64) -> u64
    ensures { result ≡ key_handed_over key }
{
    key - key / 4 % 2 * 4
}

// The picture at `pos` is handed over: its flag clears, and the next output number is its number plus the step.
fn hand_over(keys: &mut [u64], rest: &mut Rest, pos: usize) -> Shown
    requires place { pos < length keys.old }
    requires fits { key_number (get_or keys.old pos 0) ≤ highest_poc }
    ensures shows { result ≡ key_shown (get_or keys.old pos 0) }
    ensures goes_on { rest.new ≡ with_output_of (get_or keys.old pos 0) rest.old }
    ensures cleared { keys.new ≡ set keys.old pos (key_handed_over (get_or keys.old pos 0)) }
{
    let key = keys[pos];
    let poc = number_of(key);
    keys[pos] = handed_over(key);
    rest.poc_next_output = poc + rest.poc_increase as u32;
    Shown {
        buffer: buffer_byte(key),
        poc,
    }
}

// On the keys of a whole state, whose pictures' numbers fit; the rows are not looked at. `None`: not yet.
pub fn out(keys: &mut [u64], rest: &mut Rest) -> Result<Option<Shown>, NoMoreOutput>
    requires { (length keys.old ≡ slots) × NumbersFit keys.old }
    ensures { (rows : List ℕ) → length rows ≡ rows_length
        → let wanted = out_whole (stands keys.old rows rest.old) in
        Calls (Ok (out_answer result)) keys.old rows rest.old keys.new rows rest.new wanted }
{
    let Some(pos) = due_place(keys, rest.poc_next_output)? else {
        return Ok(None);
    };
    Ok(Some(hand_over(keys, rest, pos)))
}
