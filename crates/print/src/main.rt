// Reads a note file on standard input, ranks all its lists by a stepped union from 0, and prints the reports, or the refusal's number.
#![tactic(auto)]

mod render;

use crate::render::{ROOM, render};
use std::io;
use std::io::{Read, Write};

fn main(rt: HostRuntime) -> io::Result<()> {
    let mut file = Vec::new(rt.alloc());
    rt.reader().take(65537).read_to_end(&mut file)?;
    if 65536 < file.len() {
        return io::writer(&rt).write_all(b"too long\n");
    }
    let mut out = [0u8; ROOM];
    let count = render(file.as_slice(), &mut out);
    io::writer(&rt).write_all(&out[..count])
}
