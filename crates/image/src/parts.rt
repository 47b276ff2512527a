// What stands in an image in rows: list numbers, slots and list entries. Each is read from bytes that the caller lends and written into them;
// the bytes before and behind stay. `Stored bs at ys n after` says: after is bs with ys, n bytes, stored from place at on.
ghost use Rattle.std.specs.Prelude.{◌≡◌, ◌+◌, ◌*◌, ◌≤◌, length, ℕ, List};
ghost use mathlib.Core.List.{flat_map};
ghost use Rattle.seq.specs.Lists.{Stored};
ghost use Rattle.def.specs.Word.{word_bytes};
ghost use Rattle.image.specs.Image.{word_width, slot_width, refp_width};
ghost use Rattle.image.specs.Image.{word_at, slot_at, refp_at, row_at, slot_bytes, refp_bytes};

use crate::places::{REFP_WIDTH, SLOT_WIDTH};
use def::{EvcPic, EvcRefP, Slot};
use flags::{flag_byte, read_flag};
use std::array;
use words::{read_word, write_word};

// Each field stands at its own offset, read and written in one line each: a slice for each field would say no more.
pub trait Part {
    const WIDTH: usize;

    ghost WIDTH: { ℕ };

    // What the bytes at a place stand for.
    ghost part_at: { List ℕ → ℕ → Self };

    ghost part_bytes: { Self → List ℕ };

    fn read(image: &[u8], at: usize) -> Self
        requires { at + WIDTH ≤ length image.now }
        ensures { result ≡ part_at image.now at };

    fn write(&self, image: &mut [u8], at: usize)
        requires { at + WIDTH ≤ length image.old }
        ensures { Stored image.old at (part_bytes self.now) WIDTH image.new };
}

// The parts of a row, the first at place `at`.
pub fn read_row<T: Part, const N: usize>(image: &[u8], at: usize) -> [T; N]
    requires { at + T.WIDTH * N ≤ length image.now }
    ensures { result ≡ row_at (T.part_at image.now) T.WIDTH at N }
{
    array::from_fn(
        |i|
            requires { at + T.WIDTH * i + T.WIDTH ≤ length image.now }
        { T::read(image, at + T::WIDTH * i) },
    )
}

pub fn write_row<T: Part, const N: usize>(image: &mut [u8], at: usize, parts: &[T; N])
    requires { at + T.WIDTH * N ≤ length image.old }
    ensures { Stored image.old at (flat_map T.part_bytes parts.now) (T.WIDTH * N) image.new }
{
    for (i, part) in parts.iter().enumerate() {
        part.write(image, at + T::WIDTH * i);
    }
}

// A list number.
impl Part for u32 {
    const WIDTH: usize = 4;

    ghost WIDTH = { word_width };

    ghost part_at = { word_at };

    ghost part_bytes = { word_bytes };

    fn read(image: &[u8], at: usize) -> u32 {
        read_word(image, at)
    }

    fn write(&self, image: &mut [u8], at: usize) {
        write_word(image, at, *self);
    }
}

impl Part for Slot {
    const WIDTH: usize = SLOT_WIDTH;

    ghost WIDTH = { slot_width };

    ghost part_at = { slot_at };

    ghost part_bytes = { slot_bytes };

    #[tactic(auto, unfolding(crate::specs::Image::slot_at, crate::specs::Image::list_at))]
    fn read(image: &[u8], at: usize) -> Slot {
        let pic = EvcPic {
            poc: read_word(image, at + 5),
            is_ref: read_flag(image, at + 2),
            need_for_out: read_flag(image, at + 3),
            temporal_id: image[at + 4],
            list_poc: read_row(image, at + 9),
        };
        Slot {
            present: read_flag(image, at),
            buf: image[at + 1],
            pic,
        }
    }

    fn write(&self, image: &mut [u8], at: usize) {
        image[at] = flag_byte(self.present);
        image[at + 1] = self.buf;
        image[at + 2] = flag_byte(self.pic.is_ref);
        image[at + 3] = flag_byte(self.pic.need_for_out);
        image[at + 4] = self.pic.temporal_id;
        write_word(image, at + 5, self.pic.poc);
        write_row(image, at + 9, &self.pic.list_poc);
    }
}

impl Part for EvcRefP {
    const WIDTH: usize = REFP_WIDTH;

    ghost WIDTH = { refp_width };

    ghost part_at = { refp_at };

    ghost part_bytes = { refp_bytes };

    #[tactic(auto, unfolding(crate::specs::Image::refp_at, crate::specs::Image::list_at))]
    fn read(image: &[u8], at: usize) -> EvcRefP {
        EvcRefP {
            present: read_flag(image, at),
            buf: image[at + 1],
            poc: read_word(image, at + 2),
            list_poc: read_row(image, at + 6),
        }
    }

    fn write(&self, image: &mut [u8], at: usize) {
        image[at] = flag_byte(self.present);
        image[at + 1] = self.buf;
        write_word(image, at + 2, self.poc);
        write_row(image, at + 6, &self.list_poc);
    }
}
