// The blocks of an accepted list, loaded without tests.
#![tactic(auto)]

ghost use Rattle.std.specs.Prelude.{◌≡◌, true};
ghost use Rattle.notefile.specs.Lists.{full_blocks, tail_at};
ghost use Rattle.notefile.specs.Conditions.{postings_right};
ghost use Rattle.notefile.specs.Inner.Structs.{skip_entry_of};
ghost use Rattle.notefile.specs.Inner.Given.{BlockRight, PackedIn, Skipped};
ghost use Rattle.notefile.specs.Inner.Reads.{docs_of, freqs_of, Loaded, Padded};

use compression::documents::sums;
use note_blocks::{packed_freqs, read_tail};
use notefile::block::{Block, DOCS, FREQS, TERMINATED, sized};
use notefile::part::Part;
use notefile::skip::SkipEntry;
use unpacking::unpack;

// TERMINATED in the places from n on.
pub fn pad(values: &mut [u32; 128], n: usize)
    ensures { Padded values.old n values.new }
{
    if n < 128 {
        values[n..].fill(TERMINATED);
    }
}

// Full block b of an accepted list, loaded by its skip entry. `previous` is the last document before it.
pub fn load_packed(
    file: &[u8],
    x: Part,
    b: usize,
    at: usize,
    e: SkipEntry,
    previous: u32,
    block: &mut Block,
)
    requires { PackedIn file.now x b at × (e ≡ skip_entry_of file.now x b) × BlockRight file.now x b previous }
    ensures { Loaded file.now x b (docs_of block.new) (freqs_of block.new) }
{
    sized(block);
    unpack(file, at, e.doc_bits, &mut block[DOCS]);
    sums(&mut block[DOCS], e.strict, b == 0, previous);
    packed_freqs(file, x, b, at, e, &mut block[FREQS]);
}

// The tail of an accepted list, loaded.
pub fn load_tail(file: &[u8], x: Part, at: usize, previous: u32, block: &mut Block)
    requires { Skipped file.now x × (at ≡ tail_at file.now x) × (postings_right file.now x ≡ true)
        × BlockRight file.now x (full_blocks x) previous }
    ensures { Loaded file.now x (full_blocks x) (docs_of block.new) (freqs_of block.new) }
{
    sized(block);
    let n = x.count % 128;
    read_tail(file, x, at, block);
    sized(block);
    sums(&mut block[DOCS], false, x.count / 128 == 0, previous);
    pad(&mut block[DOCS], n);
    pad(&mut block[FREQS], n);
}
