// The page's `step-log`: from the fresh state, a header and a line a frame of what comes on standard input.
#![tactic(auto)]

use std::io;

fn main(rt: HostRuntime) -> io::Result<()> {
    stream::print_log(&mut rt.stdin(), &mut rt.stdout())
}
