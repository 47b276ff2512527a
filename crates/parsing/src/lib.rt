// Call lines read: a body, the bytes of a line, or its characters, as a call or as none. The program, the library and the writer of call lines
// read calls by this.
#![tactic(auto)]

ghost use Rattle.std.specs.Prelude.{◌≡◌, ◌*◌, length};
ghost use Rattle.line.specs.Calls.{call_in, call_from, read_line};

use framing::read_framed_array;
use line::{Call, GET_EMPTY_PIC, HIGHEST_FLAGS, INIT, OUT_PIC, POC_DERIVATION, PUT_PIC, REFP_INIT};
use summing::is_checked;

/// The call that a body stands for, by its call byte and its length. Flags of a put that mean nothing make it none.
#[tactic(auto, unfolding(line::specs::Calls::call_in))]
pub fn call_in(body: &[u8]) -> Option<Call>
    ensures { result ≡ call_in body.now }
{
    match *body {
        [INIT, max_pb_size, max_num_ref_pics] => Some(Call::Init {
            max_pb_size,
            max_num_ref_pics,
        }),
        [GET_EMPTY_PIC] => Some(Call::GetEmptyPic),
        [PUT_PIC, flags, p0, p1, p2, p3, temporal_id, g0, g1, g2, g3] if flags <= HIGHEST_FLAGS => {
            Some(Call::PutPic {
                flags,
                poc: u32::from_be_bytes([p0, p1, p2, p3]),
                temporal_id,
                ref_pic_gap_length: u32::from_be_bytes([g0, g1, g2, g3]),
            })
        }
        [OUT_PIC] => Some(Call::OutPic),
        [
            REFP_INIT,
            slice_type,
            p0,
            p1,
            p2,
            p3,
            layer_id,
            i0,
            i1,
            i2,
            i3,
            limit,
        ] => {
            Some(Call::RefpInit {
                slice_type,
                poc: u32::from_be_bytes([p0, p1, p2, p3]),
                layer_id,
                last_intra: u32::from_be_bytes([i0, i1, i2, i3]),
                max_num_ref_pics: limit,
            })
        }
        [POC_DERIVATION, log2_sub_gop_length, tid] => Some(Call::PocDerivation {
            log2_sub_gop_length,
            tid,
        }),
        _ => None,
    }
}

/// The bytes of a call line, check byte last.
#[tactic(auto, using(line::proofs::Reading::unchecked))]
pub fn read_call(bytes: &[u8]) -> Option<Call>
    ensures { result ≡ call_from bytes.now }
{
    if !is_checked(bytes) {
        return None;
    }
    let n = bytes.len() - 1;
    call_in(&bytes[..n])
}

// The characters of a line of `N` bytes.
fn read_sized<const N: usize>(digits: &[u8]) -> Option<Call>
    requires { length digits.now ≡ 2 * N }
    ensures { result ≡ read_line digits.now }
{
    let bytes = read_framed_array::<N>(digits)?;
    read_call(&bytes)
}

/// The longest call line has 26 digits.
pub const LONGEST_LINE: usize = 26;

/// The characters of a line, without its newline. A call line has one of four lengths.
pub fn read_line(digits: &[u8]) -> Option<Call>
    ensures { result ≡ read_line digits.now }
{
    match digits.len() {
        4 => read_sized::<2>(digits),
        8 => read_sized::<4>(digits),
        24 => read_sized::<12>(digits),
        LONGEST_LINE => read_sized::<13>(digits),
        _ => None,
    }
}
