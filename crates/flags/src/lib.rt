// A flag as one byte: read from bytes that the caller lends, and made. The image and the planner's records have such bytes.
#![tactic(auto)]

ghost use Rattle.std.specs.Prelude.{◌≡◌, ◌<◌, length};
ghost use Rattle.words.specs.Words.{flag_byte, flag_at};

pub fn read_flag(image: &[u8], at: usize) -> bool
    requires { at < length image.now }
    ensures { result ≡ flag_at image.now at }
{
    image[at] == 1
}

pub fn flag_byte(b: bool) -> u8
    ensures { result ≡ flag_byte b }
{
    u8::from(b)
}
