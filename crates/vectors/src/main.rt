// Replays samples of cases that the oracle has answered, runs and writes, through the C interface's functions, and prints how often each
// number was returned.
#![tactic(auto)]

mod runs;
mod writes;

use crate::runs::replay_run;
use crate::writes::replay_write;
use samples::replay::replay_file;
use std::io;

fn main(rt: HostRuntime) -> io::Result<()> {
    println!(rt; "runs")?;
    replay_file(&rt, "sample", |data: &[u8], at: usize| replay_run(data, at))?;
    println!(rt; "writes")?;
    replay_file(
        &rt,
        "writes",
        |data: &[u8], at: usize| replay_write(data, at),
    )
}
