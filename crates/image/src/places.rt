// The widths of the image's parts in bytes, and the places at which they begin.
use def::{MAX_NUM_REF_PICS, MAX_PB_SIZE, REFP_PLACES};

const LIST_WIDTH: usize = 4 * MAX_NUM_REF_PICS;

pub const SLOT_WIDTH: usize = 9 + LIST_WIDTH;

pub const REFP_WIDTH: usize = 6 + LIST_WIDTH;

pub const LEASE_PLACE: usize = SLOT_WIDTH * MAX_PB_SIZE;

// Behind the lease stand the state's numbers.
pub const SCALARS_PLACE: usize = LEASE_PLACE + SLOT_WIDTH;

pub const MAX_PB_SIZE_AT: usize = SCALARS_PLACE;

pub const MAX_NUM_REF_PICS_AT: usize = SCALARS_PLACE + 1;

pub const CUR_PB_SIZE_AT: usize = SCALARS_PLACE + 2;

pub const CUR_NUM_REF_PICS_AT: usize = SCALARS_PLACE + 3;

pub const NUM_REFP_0_AT: usize = SCALARS_PLACE + 4;

pub const NUM_REFP_1_AT: usize = SCALARS_PLACE + 5;

pub const POC_NEXT_OUTPUT_AT: usize = SCALARS_PLACE + 6;

pub const POC_INCREASE_AT: usize = SCALARS_PLACE + 10;

pub const REFP_PLACE: usize = SCALARS_PLACE + 11;

pub const POC_PLACE: usize = REFP_PLACE + REFP_WIDTH * REFP_PLACES;

pub const IMAGE_LENGTH: usize = POC_PLACE + 12;
