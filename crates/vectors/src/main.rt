// The directed vectors: the worked bytes of docs/SPEC.md (S10.1 to S10.51, S10.56 to S10.62), each refusal, each pair of them, each thing that is kept.
#![tactic(auto)]

use std::io;

fn main(rt: HostRuntime) -> io::Result<()> {
    protocol::answer_input(&rt)
}
