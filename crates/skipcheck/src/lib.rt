// Row 5 of the table: a list's skip entries.
#![tactic(auto)]

ghost use Rattle.std.specs.Prelude.{◌≡◌, ◌&&◌, ◌/◌, ◌%◌, eqb, leb};
ghost use Rattle.notefile.specs.Lists.{tail_at};
ghost use Rattle.notefile.specs.Conditions.{skips_right};
ghost use Rattle.notefile.specs.Inner.Given.{Parted};
ghost use Rattle.skipcheck.specs.Inner.Answers.{tail_or};

use codec::bits::wide;
use notefile::part::Part;
use notefile::skip::skip_entry_at;
use outcome::refusal::Refusal;

// Whether row 5 lets a width byte and a frequency width through.
fn widths_right(byte: u32, freq_bits: u32) -> bool
    ensures { result ≡ eqb (byte / 32 % 2) 0 && (eqb (byte / 128 % 2) 0 && leb freq_bits 32) }
{
    if byte / 32 % 2 != 0 {
        return false;
    }
    if byte / 128 % 2 != 0 {
        return false;
    }
    freq_bits <= 32
}

// Where the tail starts, if row 5 lets the list's skip entries through. The blocks before it may not lie in the file.
pub fn tail_place(file: &[u8], x: Part) -> Result<usize, Refusal>
    requires { Parted file.now x }
    ensures { result ≡ tail_or (skips_right file.now x) (tail_at file.now x) }
{
    let blocks = x.count / 128;
    if x.skips + x.skip_entry_len * blocks != x.postings {
        return Err(Refusal::Skips);
    }
    let mut at = x.postings;
    for b in 0..blocks {
        let e = skip_entry_at(file, x, b);
        let byte = wide(file[e + 4]);
        let freq_bits = wide(file[e + 5]);
        if !widths_right(byte, freq_bits) {
            return Err(Refusal::Skips);
        }
        at += 16 * ((byte % 32 + freq_bits) as usize);
    }
    Ok(at)
}
