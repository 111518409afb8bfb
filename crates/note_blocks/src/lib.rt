// The blocks of a list, read with the tests of rows 6 to 8.
#![tactic(auto)]

ghost use Rattle.std.specs.Prelude.{◌≡◌, ◌≤◌, length};
ghost use Rattle.notefile.specs.Header.{documents};
ghost use Rattle.notefile.specs.Lists.{previous_doc, tail_at};
ghost use Rattle.notefile.specs.Inner.Structs.{skip_entry_of};
ghost use Rattle.notefile.specs.Inner.Given.{PackedIn, Skipped};
ghost use Rattle.notefile.specs.Inner.Reads.{docs_of, freqs_of, DocsRead, FreqsRead, Sized, TailRead};

use codec::vint::read_vints;
use compression::documents::documents;
use frequencies::frequencies;
use notefile::block::{Block, DOCS, FREQS};
use notefile::part::Part;
use notefile::skip::SkipEntry;
use unpacking::unpack;

// The documents of full block b, and whether row 7 lets them through.
pub fn packed_docs(
    file: &[u8],
    x: Part,
    b: usize,
    at: usize,
    e: SkipEntry,
    previous: u32,
    limit: u32,
    docs: &mut [u32; 128],
) -> bool
    requires { PackedIn file.now x b at × (e ≡ skip_entry_of file.now x b) × (previous ≡ previous_doc file.now x b)
        × (limit ≡ documents file.now) × (limit ≤ 1048576) × (length docs.old ≡ 128) × (previous ≤ 1048576) }
    ensures { DocsRead file.now x b result docs.new }
{
    unpack(file, at, e.doc_bits, docs);
    // 128 values of at most 24 bits, each with its 1, add up to at most 2^31.
    let narrow = e.strict && e.doc_bits <= 24;
    if documents(docs, 128, e.strict, b == 0, previous, limit, narrow) {
        let last = docs[127];
        return last == e.last;
    }
    false
}

// The frequencies of full block b, and whether row 8 lets them through.
pub fn packed_freqs(
    file: &[u8],
    x: Part,
    b: usize,
    at: usize,
    e: SkipEntry,
    freqs: &mut [u32; 128],
) -> bool
    requires { PackedIn file.now x b at × (e ≡ skip_entry_of file.now x b) × (length freqs.old ≡ 128) }
    ensures { FreqsRead file.now x b result freqs.new }
{
    unpack(file, at + 16 * (e.doc_bits as usize), e.freq_bits, freqs);
    frequencies(freqs, 128, e.strict)
}

// The values of the tail's VInts, and whether row 6 lets them through.
pub fn read_tail(file: &[u8], x: Part, at: usize, block: &mut Block) -> bool
    requires { Skipped file.now x × (at ≡ tail_at file.now x) × Sized block.old }
    ensures { TailRead file.now x (docs_of block.old) (freqs_of block.old) result (docs_of block.new) (freqs_of block.new) }
{
    if x.end < at {
        return false;
    }
    let n = x.count % 128;
    let Some(middle) = read_vints(file, x.end, at, n, &mut block[DOCS]) else {
        return false;
    };
    let Some(last) = read_vints(file, x.end, middle, n, &mut block[FREQS]) else {
        return false;
    };
    last == x.end
}
