// The one byte in which the library says how a call went that gives nothing else: 0, or the refusal's number.
#![tactic(auto)]

ghost use Rattle.std.specs.Prelude.{◌≡◌};
ghost use Rattle.statuses.specs.Statuses.{status};

use def::{DONE, Refusal};

pub fn status_of(done: Result<(), Refusal>) -> u8
    ensures { result ≡ status done }
{
    match done {
        Ok(()) => DONE,
        Err(why) => u8::from(why),
    }
}
