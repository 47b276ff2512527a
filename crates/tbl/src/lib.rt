// The lengths of a group, and slice depths: the tables of the Rust's src/enc/tbl.rs, a row for each of the lengths 2, 4, 8, 12 and 16.
#![tactic(auto)]

ghost use Rattle.std.specs.Prelude.{◌≡◌, ◌≤◌, true};
ghost use Rattle.def.specs.Binary.{floor_log2};
ghost use Rattle.tbl.specs.DepthRows.{is_gop_size, slice_depth, slice_depth_p, entry_of};

use def::{
    FRM_DEPTH_1 as DEPTH_1, FRM_DEPTH_2 as DEPTH_2, FRM_DEPTH_3 as DEPTH_3, FRM_DEPTH_4 as DEPTH_4,
    FRM_DEPTH_5 as DEPTH_5, Refusal,
};

// Stands where a row has no entry.
const NO_DEPTH: u8 = 0xff;

// Rows of a table: that of the length n at n / 4.
const ROWS: usize = 5;

static tbl_slice_depth_P: [[u8; 16]; ROWS] = [
    // gop_size = 2
    [
        DEPTH_2, DEPTH_1, NO_DEPTH, NO_DEPTH, NO_DEPTH, NO_DEPTH, NO_DEPTH, NO_DEPTH, NO_DEPTH,
        NO_DEPTH, NO_DEPTH, NO_DEPTH, NO_DEPTH, NO_DEPTH, NO_DEPTH, NO_DEPTH,
    ],
    // gop_size = 4
    [
        DEPTH_3, DEPTH_2, DEPTH_3, DEPTH_1, NO_DEPTH, NO_DEPTH, NO_DEPTH, NO_DEPTH, NO_DEPTH,
        NO_DEPTH, NO_DEPTH, NO_DEPTH, NO_DEPTH, NO_DEPTH, NO_DEPTH, NO_DEPTH,
    ],
    // gop_size = 8
    [
        DEPTH_4, DEPTH_3, DEPTH_4, DEPTH_2, DEPTH_4, DEPTH_3, DEPTH_4, DEPTH_1, NO_DEPTH, NO_DEPTH,
        NO_DEPTH, NO_DEPTH, NO_DEPTH, NO_DEPTH, NO_DEPTH, NO_DEPTH,
    ],
    // gop_size = 12
    [
        NO_DEPTH, NO_DEPTH, NO_DEPTH, NO_DEPTH, NO_DEPTH, NO_DEPTH, NO_DEPTH, NO_DEPTH, NO_DEPTH,
        NO_DEPTH, NO_DEPTH, NO_DEPTH, NO_DEPTH, NO_DEPTH, NO_DEPTH, NO_DEPTH,
    ],
    // gop_size = 16
    [
        DEPTH_5, DEPTH_4, DEPTH_5, DEPTH_3, DEPTH_5, DEPTH_4, DEPTH_5, DEPTH_2, DEPTH_5, DEPTH_4,
        DEPTH_5, DEPTH_3, DEPTH_5, DEPTH_4, DEPTH_5, DEPTH_1,
    ],
];

static tbl_slice_depth: [[u8; 15]; ROWS] = [
    // gop_size = 2
    [
        DEPTH_2, NO_DEPTH, NO_DEPTH, NO_DEPTH, NO_DEPTH, NO_DEPTH, NO_DEPTH, NO_DEPTH, NO_DEPTH,
        NO_DEPTH, NO_DEPTH, NO_DEPTH, NO_DEPTH, NO_DEPTH, NO_DEPTH,
    ],
    // gop_size = 4
    [
        DEPTH_2, DEPTH_3, DEPTH_3, NO_DEPTH, NO_DEPTH, NO_DEPTH, NO_DEPTH, NO_DEPTH, NO_DEPTH,
        NO_DEPTH, NO_DEPTH, NO_DEPTH, NO_DEPTH, NO_DEPTH, NO_DEPTH,
    ],
    // gop_size = 8
    [
        DEPTH_2, DEPTH_3, DEPTH_3, DEPTH_4, DEPTH_4, DEPTH_4, DEPTH_4, NO_DEPTH, NO_DEPTH,
        NO_DEPTH, NO_DEPTH, NO_DEPTH, NO_DEPTH, NO_DEPTH, NO_DEPTH,
    ],
    // gop_size = 12
    [
        NO_DEPTH, NO_DEPTH, NO_DEPTH, NO_DEPTH, NO_DEPTH, NO_DEPTH, NO_DEPTH, NO_DEPTH, NO_DEPTH,
        NO_DEPTH, NO_DEPTH, NO_DEPTH, NO_DEPTH, NO_DEPTH, NO_DEPTH,
    ],
    // gop_size = 16
    [
        DEPTH_2, DEPTH_3, DEPTH_3, DEPTH_4, DEPTH_4, DEPTH_4, DEPTH_4, DEPTH_5, DEPTH_5, DEPTH_5,
        DEPTH_5, DEPTH_5, DEPTH_5, DEPTH_5, DEPTH_5,
    ],
];

// Whether a length is that of a group.
pub fn is_gop_size(gop_size: u64) -> bool
    ensures { result ≡ is_gop_size gop_size }
{
    matches!(gop_size, 2 | 4 | 8 | 16)
}

/// The length of a group, in pictures.
#[derive(Clone, Copy)]
pub struct GopSize {
    pub pictures: u64,
    pub ghost is_size: { is_gop_size pictures ≡ true },
}

// 17 where no group has the length.
impl TryFrom<u64> for GopSize {
    type Error = Refusal;

    ghost use Rattle.tbl.specs.GopSize.{GivesSize};

    ghost try_from_gives = { GivesSize };

    fn try_from(pictures: u64) -> Result<Self, Refusal> {
        if !is_gop_size(pictures) {
            return Err(Refusal::BadLength);
        }
        Ok(GopSize { pictures })
    }
}

impl GopSize {
    /// The logarithm of the length.
    pub fn log2(self) -> u8
        ensures { result ≡ floor_log2 self.pictures }
    {
        self.pictures.ilog2() as u8
    }

    // The depth at a position of a group's row, of which the first `places` have one.
    fn depth_in<const ROW: usize>(
        self,
        table: &[[u8; ROW]; ROWS],
        places: u64,
        position: u64,
    ) -> Result<u8, Refusal>
        requires { places ≤ ROW }
        ensures { result ≡ entry_of table.now self.pictures places position }
    {
        if position >= places {
            return Err(Refusal::BadLength);
        }
        Ok(table[(self.pictures / 4) as usize][position as usize])
    }
}

/// The depth at a position of a group with a hierarchy of B slices.
#[tactic(auto, unfolding(crate::specs::DepthRows::slice_depth))]
pub fn slice_depth(gop_size: u64, position: u64) -> Result<u8, Refusal>
    ensures { result ≡ slice_depth gop_size position }
{
    let gop_size = GopSize::try_from(gop_size)?;
    gop_size.depth_in(&tbl_slice_depth, gop_size.pictures - 1, position)
}

/// The depth at a position of a group of P slices.
#[tactic(auto, unfolding(crate::specs::DepthRows::slice_depth_p))]
pub fn slice_depth_p(gop_size: u64, position: u64) -> Result<u8, Refusal>
    ensures { result ≡ slice_depth_p gop_size position }
{
    let gop_size = GopSize::try_from(gop_size)?;
    gop_size.depth_in(&tbl_slice_depth_P, gop_size.pictures, position)
}
