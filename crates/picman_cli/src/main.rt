// The program: calls from standard input, one a line, and their answers to standard output.
#![tactic(auto)]

use service::serve;

fn main(rt: HostRuntime) {
    let _ = serve(&rt, &mut rt.stdin(), &mut rt.stdout());
}
