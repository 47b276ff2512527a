// The message of a line of commands that could not be read: its number and what was expected.
#![tactic(auto)]

ghost use Rattle.std.specs.Prelude.{◌≡◌, ◌≤◌, length};
ghost use Rattle.expecting.specs.Expected.{expected_text, expected_words};

use commands::Expected;
use phrases::{Sentence, push_number};

fn expected_text(want: Expected) -> &'static str
    ensures text { result.now ≡ expected_text want }
    ensures short { length result.now ≤ 44 }
{
    match want {
        Expected::Command => "init, get, put, out, lists or derive",
        Expected::First | Expected::Second | Expected::Layer | Expected::Limit => {
            "a number from 0 to 255"
        }
        Expected::Slice => "I, P, B or a number from 0 to 255",
        Expected::Number | Expected::Gap => "a number from 0 to 4294967295",
        Expected::Picture => "none or a number from 0 to 4294967295",
        Expected::PutPart => "layer, gap, idr, out, ref or none, each once",
        Expected::ListPart => "layer, intra or limit, each once",
        Expected::Intra => "a number from -2147483648 to 2147483647",
        Expected::End => "the end of the line",
        Expected::ShorterLine => "at most 1023 characters",
    }
}

// The message of a line that could not be read, newline last.
#[tactic(auto, unfolding(crate::specs::Expected::expected_words))]
pub fn complain(number: u64, want: Expected) -> Sentence
    ensures { result.bytes ≡ expected_words number want }
{
    let mut words = Sentence::new();
    words.push_str("line ");
    push_number(&mut words, number);
    words.push_str(": expected ");
    words.push_str(expected_text(want));
    words.push_str("\n");
    words
}
