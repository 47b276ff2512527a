// The program: commands from standard input, one a line, and their call lines to standard output; what it can't read is told on standard error.
#![tactic(auto)]

use relay::relay;
use telling::Commands;

fn main(rt: HostRuntime) {
    let _ = relay::<Commands, _, _, _>(&rt, &mut rt.stdin(), &mut rt.stdout(), &mut rt.stderr());
}
