// The program: answer lines from standard input, and their words to standard output.
#![tactic(auto)]

use relay::relay;
use telling::Answers;

fn main(rt: HostRuntime) {
    let _ = relay::<Answers, _, _, _>(&rt, &mut rt.stdin(), &mut rt.stdout(), &mut rt.stderr());
}
