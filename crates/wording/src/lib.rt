// The word for the status of an answer: each refusal has one of its own.
#![tactic(auto)]

ghost use Rattle.std.specs.Prelude.{◌≡◌, ◌≤◌, length};
ghost use Rattle.wording.specs.Words.{status_word};

// By the number and not by `Refusal`: a status is any byte, and two numbers that are withdrawn have a word too, 10 and 12.
#[tactic(auto, unfolding(crate::specs::Words::status_word))]
pub fn status_word(status: u8) -> &'static str
    ensures word { result.now ≡ status_word status }
    ensures short { length result.now ≤ 20 }
{
    match status {
        1 => "size too big",
        2 => "rack full",
        3 => "picture still out",
        4 => "nothing out",
        5 => "slot taken",
        6 => "number too high",
        7 => "torn rack",
        8 => "too many references",
        9 => "no references",
        10 | 12 => "withdrawn",
        11 => "forward list empty",
        13 => "twin",
        14 => "no such place",
        15 => "bad layer",
        16 => "bad record",
        17 => "bad length",
        18 => "bad line",
        19 => "bad plan",
        20 => "no room",
        0 | 21..=255 => "unknown",
    }
}
