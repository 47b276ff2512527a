// What a slice asks of the ordered pictures, in plain numbers: by its type, its layer and the last intra picture. The passes go by what it gives.
#![tactic(auto)]

ghost use Rattle.std.specs.Prelude.{◌≡◌, ltb};
ghost use Rattle.ordering.specs.Order.{Key};
ghost use Rattle.ruling.specs.Rules.{is_old, ask_of};
ghost use Rattle.passes.specs.InNumbers.{ask_in, SameAsk};

use def::{RefpCall, SliceType};
use passes::{BoundAfter, PassRule};

// A layer is a byte, so this bounds nothing.
const NO_BOUND: u64 = 255;

// The number below which a picture is old, 0 where none is.
fn oldest_of(last_intra: i32, poc: u32) -> u64
    ensures { (k : Key) → ltb k.poc result ≡ is_old last_intra poc k }
{
    let intra = u32::try_from(last_intra).unwrap_or(0);
    if poc < intra { 0 } else { u64::from(intra) }
}

pub fn rule_of(call: RefpCall) -> PassRule
    ensures { SameAsk (ask_in result) (ask_of call) }
{
    let rule = PassRule {
        limit: usize::from(call.max_num_ref_pics),
        poc: u64::from(call.poc),
        oldest: oldest_of(call.last_intra, call.poc),
        start: u64::from(call.layer_id.saturating_sub(1)),
        after: BoundAfter::BelowTaken,
    };
    match call.slice_type {
        SliceType::EVC_ST_P if call.layer_id == 0 => PassRule {
            start: NO_BOUND,
            after: BoundAfter::Fixed(NO_BOUND),
            ..rule
        },
        SliceType::EVC_ST_P => PassRule {
            oldest: 0,
            start: if call.layer_id == 1 { 1 } else { NO_BOUND },
            after: BoundAfter::Fixed(1),
            ..rule
        },
        _ => rule,
    }
}
