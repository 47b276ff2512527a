// The bytes of an image, written part by part into a lent one.
ghost use Rattle.std.specs.Prelude.{◌≡◌, length};
ghost use Rattle.seq.specs.Lists.{Stored};
ghost use Rattle.image.specs.Image.{scalars_place, refp_place, image_length};
ghost use Rattle.image.specs.Image.{scalar_bytes, pm_bytes, image_bytes};

use crate::parts::{Part, write_row};
use crate::places::{
    CUR_NUM_REF_PICS_AT, CUR_PB_SIZE_AT, LEASE_PLACE, MAX_NUM_REF_PICS_AT, MAX_PB_SIZE_AT,
    NUM_REFP_0_AT, NUM_REFP_1_AT, POC_INCREASE_AT, POC_NEXT_OUTPUT_AT, POC_PLACE, REFP_PLACE,
};
use def::{EvcPm, EvcPoc, EvcRefP, REFP_PLACES};
use records::write_poc_at;
use words::write_word;

// The state's numbers, behind its slots and its lease.
fn write_scalars(image: &mut [u8], pm: &EvcPm)
    requires { length image.old ≡ image_length }
    ensures { Stored image.old scalars_place (scalar_bytes pm.now) 11 image.new }
{
    image[MAX_PB_SIZE_AT] = pm.max_pb_size;
    image[MAX_NUM_REF_PICS_AT] = pm.max_num_ref_pics;
    image[CUR_PB_SIZE_AT] = pm.cur_pb_size;
    image[CUR_NUM_REF_PICS_AT] = pm.cur_num_ref_pics;
    image[NUM_REFP_0_AT] = pm.num_refp_0;
    image[NUM_REFP_1_AT] = pm.num_refp_1;
    write_word(image, POC_NEXT_OUTPUT_AT, pm.poc_next_output);
    image[POC_INCREASE_AT] = pm.poc_increase;
}

fn write_pm(image: &mut [u8], pm: &EvcPm)
    requires { length image.old ≡ image_length }
    ensures { Stored image.old 0 (pm_bytes pm.now) refp_place image.new }
{
    write_row(image, 0, &pm.pic);
    pm.pic_lease.write(image, LEASE_PLACE);
    write_scalars(image, pm);
}

// The whole image, whatever the bytes were before.
pub fn write_image(image: &mut [u8], pm: &EvcPm, refp: &[EvcRefP; REFP_PLACES], poc: EvcPoc)
    requires { length image.old ≡ image_length }
    ensures { image.new ≡ image_bytes pm.now refp.now poc }
{
    write_pm(image, pm);
    write_row(image, REFP_PLACE, refp);
    write_poc_at(image, POC_PLACE, poc);
}
