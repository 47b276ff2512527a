// Out: the lowest slot wanted for output whose number is due is handed over.
ghost use Rattle.picman.specs.Out.{out};
ghost use Rattle.entry.specs.Opening.{Gives};
ghost use Rattle.entry.specs.Output.{output_answer};

use crate::opening::open_state;
use conversion::together::put_together;
use def::{EvcPm, Refusal};
use keys::{ROWS, SLOTS};
use picman::Shown;

// Why there is no picture to wait for: none is wanted for output, or the state is not whole. An enum, since `None` as an error would not say
// that no more comes.
#[derive(Clone, Copy)]
pub enum NoOutput {
    NoMore,
    Refused(Refusal),
}

// `None`: not yet.
pub fn evc_picman_out_pic(pm: &mut EvcPm) -> Result<Option<Shown>, NoOutput>
    ensures { Gives (out pm.old) (output_answer result) pm.new }
{
    let mut keys = [0; SLOTS];
    let mut rows = [0; ROWS];
    let mut rest = open_state(*pm, &mut keys, &mut rows).map_err(NoOutput::Refused)?;
    let handed = picman::out::out(&mut keys, &mut rest);
    *pm = put_together(&keys, &rows, rest);
    handed.map_err(|_| NoOutput::NoMore)
}
