// Get: the lowest idle picture is leased, else a new one.
ghost use Rattle.picman.specs.Get.{get};
ghost use Rattle.picman.specs.Results.{get_answer};
ghost use Rattle.entry.specs.Opening.{Gives};

use crate::opening::open_state;
use conversion::together::put_together;
use def::{EvcPm, Refusal};
use keys::{ROWS, SLOTS};
use picman::Shown;

pub fn evc_picman_get_empty_pic(pm: &mut EvcPm) -> Result<Shown, Refusal>
    ensures { Gives (get pm.old) (get_answer result) pm.new }
{
    let mut keys = [0; SLOTS];
    let mut rows = [0; ROWS];
    let mut rest = open_state(*pm, &mut keys, &mut rows)?;
    let leased = picman::get::get(&mut keys, &mut rows, &mut rest);
    *pm = put_together(&keys, &rows, rest);
    leased
}
