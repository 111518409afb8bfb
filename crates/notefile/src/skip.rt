// Skip entries: one for each full block of a list.
ghost use Rattle.std.specs.Prelude.{◌≡◌, ◌+◌, ◌≤◌, ◌<◌, length};
ghost use Rattle.notefile.specs.Skips.{skip_entry_at};
ghost use Rattle.notefile.specs.Lists.{full_blocks};
ghost use Rattle.notefile.specs.Inner.Structs.{last_before, skip_entry_of};
ghost use Rattle.notefile.specs.Inner.Given.{Skipped};

use crate::part::Part;
use codec::bits::read_u32;

// A skip entry: the block's last document, the widths of its documents and frequencies, whether it is strict, and the codes of its bound.
#[derive(Clone, Copy)]
pub struct SkipEntry {
    pub last: u32,
    pub doc_bits: u32,
    pub strict: bool,
    pub freq_bits: u32,
    pub norm_code: u8,
    pub freq_code: u8,
}

// Where block b's skip entry stands.
pub fn skip_entry_at(file: &[u8], x: Part, b: usize) -> usize
    requires { Skipped file.now x × (b < full_blocks x) }
    ensures { (result ≡ skip_entry_at x b) × (8 ≤ x.skip_entry_len) × (result + x.skip_entry_len ≤ length file.now) }
{
    x.skips + x.skip_entry_len * b
}

// Block b's skip entry.
pub fn read_skip_entry(file: &[u8], x: Part, b: usize) -> SkipEntry
    requires { Skipped file.now x × (b < full_blocks x) }
    ensures { result ≡ skip_entry_of file.now x b }
{
    let at = skip_entry_at(file, x, b);
    let byte = u32::from(file[at + 4]);
    SkipEntry {
        last: read_u32(file, at),
        doc_bits: byte % 32,
        strict: byte / 64 % 2 == 1,
        freq_bits: u32::from(file[at + 5]),
        norm_code: file[at + x.skip_entry_len - 2],
        freq_code: file[at + x.skip_entry_len - 1],
    }
}

// The last document before block b, by its skip entry; 0 before the first.
pub fn last_before(file: &[u8], x: Part, b: usize) -> u32
    requires { Skipped file.now x × (b ≤ full_blocks x) }
    ensures { result ≡ last_before file.now x b }
{
    if b == 0 {
        return 0;
    }
    read_u32(file, skip_entry_at(file, x, b - 1))
}
