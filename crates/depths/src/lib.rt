// The depth of a slice as one number for C: 0 where the tables have none. Two functions, one under each symbol of the C interface.
#![tactic(auto)]

ghost use Rattle.std.specs.Prelude.{◌≡◌};
ghost use Rattle.tbl.specs.DepthRows.{slice_depth, slice_depth_p};
ghost use Rattle.depths.specs.Depths.{depth_or_zero};

use tbl::{slice_depth, slice_depth_p};

// The depth at a position of a group with a hierarchy of B slices.
pub fn depth_or_zero(gop_size: u64, position: u64) -> u8
    ensures { result ≡ depth_or_zero (slice_depth gop_size position) }
{
    slice_depth(gop_size, position).unwrap_or(0)
}

// The depth at a position of a group of P slices.
pub fn depth_p_or_zero(gop_size: u64, position: u64) -> u8
    ensures { result ≡ depth_or_zero (slice_depth_p gop_size position) }
{
    slice_depth_p(gop_size, position).unwrap_or(0)
}
