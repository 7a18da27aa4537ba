// step-log over one long flight, longer than one read: tests/long-flight makes its frames, and an independent model
// gave its log too.
#![tactic(auto)]

use std::io;

fn main(rt: HostRuntime) -> io::Result<()> {
    stream::print_log(&mut rt.stdin(), &mut rt.stdout())
}
