// An entry goes to place `cnt` of one list unless its number stands among the first `cnt` entries there, on lists that are lent.
#![tactic(auto)]

ghost use Rattle.refp.specs.Copy.{copy};
ghost use Rattle.refp.specs.Answers.{copy_answer};
ghost use Rattle.copying.specs.Copying.{GivesCopy};

use def::{EvcRefP, REFP_PLACES, Refusal};
use entries::{head_of, put_lists, take_lists};
use keys::ROWS;

// The entry comes by value: of one behind a reference the proof would not know that its buffer number fits a byte.
pub fn check_copy_refp(
    refp: &mut [EvcRefP; REFP_PLACES],
    cnt: u64,
    lidx: u64,
    refp_src: EvcRefP,
) -> Result<(), Refusal>
    ensures { GivesCopy (copy refp.old cnt lidx refp_src) (copy_answer result) refp.new }
{
    let mut rows = [0; ROWS];
    take_lists(refp, &mut rows);
    let given = adding::copy_refp(
        &mut rows,
        cnt,
        lidx,
        head_of(refp_src),
        refp_src.poc,
        &refp_src.list_poc,
    );
    *refp = put_lists(&rows);
    given
}
