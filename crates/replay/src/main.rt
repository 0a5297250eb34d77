// The Rust's recorded answers and the published vectors, held to the proved calls. oracle/data/replay.py makes stdin and stdout.
#![tactic(auto)]

use std::io;

fn main(rt: HostRuntime) -> io::Result<()> {
    protocol::answer_input(&rt)
}
