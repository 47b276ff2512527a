// Init: the two limits, step 1 and no lease.
ghost use Rattle.picman.specs.Init.{init};
ghost use Rattle.picman.specs.Results.{init_answer};
ghost use Rattle.entry.specs.Opening.{Gives};

use crate::opening::open_state;
use conversion::together::put_together;
use def::{EvcPm, Refusal};
use keys::{ROWS, SLOTS};

pub fn evc_picman_init(pm: &mut EvcPm, max_pb_size: u8, max_num_ref_pics: u8) -> Result<(), Refusal>
    ensures { Gives (init pm.old max_pb_size max_num_ref_pics) (init_answer result) pm.new }
{
    let mut keys = [0; SLOTS];
    let mut rows = [0; ROWS];
    let mut rest = open_state(*pm, &mut keys, &mut rows)?;
    let done = picman::init::init(&mut rest, max_pb_size, max_num_ref_pics);
    *pm = put_together(&keys, &rows, rest);
    done
}
