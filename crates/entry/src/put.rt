// Put: marking, then the leased picture goes into the store.
ghost use Rattle.picman.specs.Put.{put};
ghost use Rattle.picman.specs.Results.{put_answer};
ghost use Rattle.entry.specs.Opening.{Gives};

use crate::opening::open_state;
use conversion::together::put_together;
use def::{EvcPm, EvcRefP, PutCall, REFP_PLACES, Refusal};
use entries::take_lists;
use keys::{ROWS, SLOTS};
use picman::Shown;

pub fn evc_picman_put_pic(
    pm: &mut EvcPm,
    refp: [EvcRefP; REFP_PLACES],
    call: PutCall,
) -> Result<Option<Shown>, Refusal>
    ensures { Gives (put pm.old refp call) (put_answer result) pm.new }
{
    let mut keys = [0; SLOTS];
    let mut rows = [0; ROWS];
    take_lists(&refp, &mut rows);
    let mut rest = open_state(*pm, &mut keys, &mut rows)?;
    let placed = picman::put::put(&mut keys, &mut rows, &mut rest, call);
    *pm = put_together(&keys, &rows, rest);
    placed
}
