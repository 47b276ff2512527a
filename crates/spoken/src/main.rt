// Runs stored commands and answers through the loop of the two programs, messages and all to standard output.
//
// What `stdout` has for them was not made by these programs: it was written from the definitions.
#![tactic(auto)]

use relay::relay;
use std::fs;
use std::io::Write;
use std::rt::Files;
use telling::{Answers, Commands, Lines};

fn run<L: Lines, W: Write, E: Write>(
    rt: &(impl Files + Eprint),
    output: &mut W,
    errors: &mut E,
    path: &str,
) {
    match fs::open(rt, path) {
        Ok(mut input) => {
            let _ = relay::<L, _, _, _>(rt, &mut input, output, errors);
        }
        Err(e) => {
            let _ = eprintln!(rt; "{path}: {e}");
        }
    }
}

fn main(rt: HostRuntime) {
    let mut output = rt.stdout();
    let mut errors = rt.stdout();
    // Every command, with every part and with each part left out, in any order, with comments and other spaces.
    run::<Commands, _, _>(&rt, &mut output, &mut errors, "commands");
    // Every way in which a command can't be read, and a good one behind them.
    run::<Commands, _, _>(&rt, &mut output, &mut errors, "bad_commands");
    // Lines of 1,023, 1,024 and 5,000 characters, and a last line that lacks its newline.
    run::<Commands, _, _>(&rt, &mut output, &mut errors, "long_commands");
    // Every call with every status.
    run::<Answers, _, _>(&rt, &mut output, &mut errors, "answers");
    // Every kind of line that is no answer, and an answer behind them.
    run::<Answers, _, _>(&rt, &mut output, &mut errors, "bad_answers");
    // Nothing at all.
    run::<Commands, _, _>(&rt, &mut output, &mut errors, "empty");
    run::<Answers, _, _>(&rt, &mut output, &mut errors, "empty");
}
