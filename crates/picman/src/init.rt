// Init: the two limits, step 1 and no lease; slots and next output stay.
ghost use Rattle.std.specs.Prelude.{List, ℕ};
ghost use Rattle.keys.specs.Keys.{stands, Sized};
ghost use Rattle.picman.specs.Init.{init_whole};
ghost use Rattle.picman.specs.Results.{init_answer};
ghost use Rattle.picman.specs.OnKeys.{Calls};

use def::{MAX_PB, MAX_REFS, Refusal};
use keys::Rest;

// Neither keys nor rows are looked at: whatever they hold, they stay.
pub fn init(rest: &mut Rest, max_pb_size: u8, max_num_ref_pics: u8) -> Result<(), Refusal>
    ensures { (keys rows : List ℕ) → Sized keys rows
        → let wanted = init_whole (stands keys rows rest.old) max_pb_size max_num_ref_pics in
        Calls (init_answer result) keys rows rest.old keys rows rest.new wanted }
{
    if (MAX_PB < max_pb_size) | (MAX_REFS < max_num_ref_pics) {
        return Err(Refusal::SizeTooBig);
    }
    rest.max_pb_size = max_pb_size;
    rest.max_num_ref_pics = max_num_ref_pics;
    rest.poc_increase = 1;
    rest.lease = 0;
    Ok(())
}
