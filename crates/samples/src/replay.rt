// The replay of a sample: each case in turn, how often each number was returned, and how many cases differ from the oracle's answer.
ghost use Rattle.std.specs.Prelude.{ℕ, ◌<◌};

use crate::tally::{more, print_line, print_tally};
use crate::words::{Replayed, size};
use std::io::Read;
use std::rt::Files;
use std::{fs, io};

// The most bytes that are read of a sample.
const MOST: u64 = 262144;

// All cases of a sample, each by `replay`, and what they returned.
fn replay_all<F: Fn(&[u8], usize) -> Replayed>(
    rt: &impl Print,
    data: &[u8],
    replay: F,
) -> io::Result<()>
    requires { (from : _) (at : ℕ) → at < 4000000000 → F.pre replay from at }
{
    let cases = size(data, 0, 65536);
    let mut tally = [0u32; 15];
    let mut differences = 0u32;
    let mut at = 4usize;
    for i in 0..cases {
        let r = replay(data, at);
        let code = r.code as usize;
        if code < 15 {
            tally[code] = more(tally[code]);
        }
        if !r.same {
            differences = more(differences);
        }
        at += size(data, at, 32768);
    }
    print_line(rt, "cases ", cases as u32)?;
    print_tally(rt, &tally)?;
    print_line(rt, "differences ", differences)
}

// The sample that a reader gives.
pub fn replay_read<R: Alloc + Print, I: Read + Drop, F: Fn(&[u8], usize) -> Replayed>(
    rt: &R,
    from: I,
    replay: F,
) -> io::Result<()>
    requires { (from : _) (at : ℕ) → at < 4000000000 → F.pre replay from at }
{
    let mut data = Vec::new(rt.alloc());
    from.take(MOST).read_to_end(&mut data)?;
    replay_all(rt, data.as_slice(), replay)
}

// The sample in a file. One that is not there is told of on standard error.
pub fn replay_file<R: Files + Alloc + Print + Eprint, F: Fn(&[u8], usize) -> Replayed>(
    rt: &R,
    path: &str,
    replay: F,
) -> io::Result<()>
    requires { (from : _) (at : ℕ) → at < 4000000000 → F.pre replay from at }
{
    match fs::open(rt, path) {
        Ok(file) => replay_read(rt, file, replay),
        Err(error) => eprintln!(rt; "{path}: {error}"),
    }
}

#[cfg(test)]
mod tests {
    use super::*;
    use std::test::Fail;

    // A sample of two cases of four bytes, each at its place.
    #[test]
    fn a_sample_is_read_and_replayed(rt: HostRuntime) -> Result<(), Fail> {
        let bytes = [2u8, 0, 0, 0, 4, 0, 0, 0, 4, 0, 0, 0];
        let replay = |_data: &[u8], at: usize| Replayed {
            code: 0,
            same: at == 4 || at == 8,
        };
        replay_read(&rt, &bytes[..], replay)?;
        Ok(())
    }
}
