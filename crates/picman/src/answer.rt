// What a call's result is answered with.
ghost use Rattle.std.specs.Prelude.{◌≡◌};
ghost use Rattle.picman.specs.Results.{init_answer, get_answer, put_answer, out_answer};

use crate::{NoMoreOutput, Shown};
use def::{Answer, Refusal};

pub fn init_answer(done: Result<(), Refusal>) -> Result<Answer, Refusal>
    ensures { result ≡ init_answer done }
{
    done.map(|()| Answer::Done)
}

pub fn get_answer(leased: Result<Shown, Refusal>) -> Result<Answer, Refusal>
    ensures { result ≡ get_answer leased }
{
    leased.map(|shown| Answer::Picture(shown.buffer, shown.poc))
}

pub fn put_answer(placed: Result<Option<Shown>, Refusal>) -> Result<Answer, Refusal>
    ensures { result ≡ put_answer placed }
{
    match placed? {
        Some(shown) => Ok(Answer::Picture(shown.buffer, shown.poc)),
        None => Ok(Answer::Done),
    }
}

// Out on a whole state is not turned down.
pub fn out_answer(handed: Result<Option<Shown>, NoMoreOutput>) -> Answer
    ensures { result ≡ out_answer handed }
{
    match handed {
        Ok(Some(shown)) => Answer::Picture(shown.buffer, shown.poc),
        Ok(None) => Answer::NotYet,
        Err(_) => Answer::NoMore,
    }
}
