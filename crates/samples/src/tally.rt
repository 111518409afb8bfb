// How often each number was returned, and its printing.
use std::io;

// A line of its label and a number.
pub fn print_line(rt: &impl Print, label: &str, n: u32) -> io::Result<()> {
    println!(rt; "{label}{n}")
}

// The numbers that were returned at all.
pub fn print_tally(rt: &impl Print, tally: &[u32]) -> io::Result<()> {
    for (code, count) in tally.iter().enumerate() {
        if *count != 0 {
            print!(rt; "returned {code}")?;
            print_line(rt, ": ", *count)?;
        }
    }
    Ok(())
}

// One more, and no more than 32 bits hold.
pub fn more(n: u32) -> u32 {
    if n < 4294967295 { n + 1 } else { n }
}
