// The reference lists of a slice, on a state and lists that are lent, with the name of the original: the entry point takes both apart, tests the
// state, calls the running core and puts both together. Any state may come: one that is not whole stays as it is, and so do its lists.
#![tactic(auto)]

ghost use Rattle.refp.specs.Lists.{lists};
ghost use Rattle.refp.specs.Answers.{lists_answer};
ghost use Rattle.listing.specs.Listing.{GivesLists};

use conversion::together::put_together;
use def::{EvcPm, EvcRefP, REFP_PLACES, RefpCall, Refusal};
use entries::{put_lists, take_lists};
use entry::opening::open_state;
use keys::{ROWS, SLOTS};
use refp::Counts;

pub fn evc_picman_refp_init(
    pm: &mut EvcPm,
    refp: &mut [EvcRefP; REFP_PLACES],
    call: RefpCall,
) -> Result<Counts, Refusal>
    ensures { GivesLists (lists pm.old refp.old call) (lists_answer result) pm.new refp.new }
{
    let mut keys = [0; SLOTS];
    let mut rows = [0; ROWS];
    take_lists(refp, &mut rows);
    let Ok(mut rest) = open_state(*pm, &mut keys, &mut rows) else {
        return Err(Refusal::StateNotWhole);
    };
    let given = filling::refp_init(&keys, &mut rows, &mut rest, call);
    *pm = put_together(&keys, &rows, rest);
    *refp = put_lists(&rows);
    given
}
