// What the bytes of an image stand for: state, lists and record.
ghost use Rattle.std.specs.Prelude.{◌≡◌, length};
ghost use Rattle.image.specs.Image.{image_length, pm_of, refp_of, poc_of};

use crate::parts::{Part, read_row};
use crate::places::{
    CUR_NUM_REF_PICS_AT, CUR_PB_SIZE_AT, LEASE_PLACE, MAX_NUM_REF_PICS_AT, MAX_PB_SIZE_AT,
    NUM_REFP_0_AT, NUM_REFP_1_AT, POC_INCREASE_AT, POC_NEXT_OUTPUT_AT, POC_PLACE, REFP_PLACE,
};
use def::{EvcPm, EvcPoc, EvcRefP, REFP_PLACES, Slot};
use records::read_poc_at;
use words::read_word;

#[tactic(auto, unfolding(crate::specs::Image::pm_of))]
pub fn read_pm(image: &[u8]) -> EvcPm
    requires { length image.now ≡ image_length }
    ensures { result ≡ pm_of image.now }
{
    EvcPm {
        pic: read_row(image, 0),
        pic_lease: Slot::read(image, LEASE_PLACE),
        max_pb_size: image[MAX_PB_SIZE_AT],
        max_num_ref_pics: image[MAX_NUM_REF_PICS_AT],
        cur_pb_size: image[CUR_PB_SIZE_AT],
        cur_num_ref_pics: image[CUR_NUM_REF_PICS_AT],
        num_refp_0: image[NUM_REFP_0_AT],
        num_refp_1: image[NUM_REFP_1_AT],
        poc_next_output: read_word(image, POC_NEXT_OUTPUT_AT),
        poc_increase: image[POC_INCREASE_AT],
    }
}

// The two reference lists, flat, forward first.
#[tactic(auto, unfolding(crate::specs::Image::refp_of))]
pub fn read_refps(image: &[u8]) -> [EvcRefP; REFP_PLACES]
    requires { length image.now ≡ image_length }
    ensures { result ≡ refp_of image.now }
{
    read_row(image, REFP_PLACE)
}

#[tactic(auto, unfolding(crate::specs::Image::poc_of))]
pub fn read_poc(image: &[u8]) -> EvcPoc
    requires { length image.now ≡ image_length }
    ensures { result ≡ poc_of image.now }
{
    read_poc_at(image, POC_PLACE)
}
