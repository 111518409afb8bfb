// Replays a sample of finds that the oracle has answered, through the C interface's function, and prints how often each number was
// returned.
#![tactic(auto)]

mod finds;

use crate::finds::replay_find;
use samples::replay::replay_file;
use std::io;

fn main(rt: HostRuntime) -> io::Result<()> {
    println!(rt; "finds")?;
    replay_file(&rt, "finds", |data: &[u8], at: usize| replay_find(data, at))
}
