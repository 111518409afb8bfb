// What one list is refused for: conditions 5 to 9, one pass over each block.
ghost use Rattle.std.specs.Prelude.{◌≡◌, ◌≤◌};
ghost use Rattle.notefile.specs.Header.{documents, norm_reader};
ghost use Rattle.notefile.specs.Lists.{block_at, full_blocks, previous_doc};
ghost use Rattle.notefile.specs.Inner.Order.{blocks_refusal, list_refusal};
ghost use Rattle.notefile.specs.Inner.Structs.{last_before, skip_entry_of};
ghost use Rattle.notefile.specs.Inner.Given.{Against, BlocksIn, Limits, NormsIn, PackedIn, Parted, Skipped};
ghost use Rattle.notefile.specs.Inner.Reads.{docs_of, freqs_of, TailValues, block_refusal};
ghost use Rattle.outcome.specs.Refusals.{refusal_number};
ghost use Rattle.listcheck.specs.Inner.Answers.{PackedRead};

use crate::bounds::scores_covered;
use block_cover::block_covered;
use bm25::{Bm25Weight, Scoring};
use compression::documents::documents;
use fieldnorm::FieldNormReader;
use frequencies::frequencies;
use note_blocks::{packed_docs, packed_freqs, read_tail};
use notefile::block::{Block, DOCS, FREQS, sized};
use notefile::part::{Part, weight_of};
use notefile::skip::{SkipEntry, last_before, read_skip_entry};
use outcome::refusal::{Refusal, lower_of};
use skipcheck::tail_place;

// What the documents and frequencies of full block b are refused for: 7, 8 or nothing. They are left in the block.
fn check_packed(
    file: &[u8],
    limit: u32,
    x: Part,
    e: SkipEntry,
    b: usize,
    at: usize,
    block: &mut Block,
) -> Result<(), Refusal>
    requires { PackedIn file.now x b at × (e ≡ skip_entry_of file.now x b) × (limit ≡ documents file.now) × (limit ≤ 1048576)
        × (last_before file.now x b ≡ previous_doc file.now x b) × (last_before file.now x b ≤ 1048576) }
    ensures { PackedRead file.now x b (refusal_number result) block.new }
{
    sized(block);
    let previous = last_before(file, x, b);
    if !packed_docs(file, x, b, at, e, previous, limit, &mut block[DOCS]) {
        return Err(Refusal::Documents);
    }
    if !packed_freqs(file, x, b, at, e, &mut block[FREQS]) {
        return Err(Refusal::Frequencies);
    }
    Ok(())
}

// What full block b is refused for: what was found of its documents and frequencies, or else 9 or nothing.
fn check_block(
    file: &[u8],
    limit: u32,
    reader: FieldNormReader,
    x: Part,
    w: Bm25Weight,
    max_score: f32,
    e: SkipEntry,
    b: usize,
    found: Result<(), Refusal>,
    block: &Block,
) -> Result<(), Refusal>
    requires { Against file.now x limit reader w max_score × PackedIn file.now x b (block_at file.now x b)
        × (e ≡ skip_entry_of file.now x b) × PackedRead file.now x b (refusal_number found) block.now }
    ensures { refusal_number result ≡ block_refusal file.now x b }
{
    found?;
    // Of at most 24 bits, and the 1 of a strict block: f32 holds every whole number up to 2^24.
    let small = e.freq_bits <= 24;
    if !block_covered(
        file,
        reader,
        w,
        limit,
        &block[DOCS],
        &block[FREQS],
        small,
        e.norm_code,
        e.freq_code,
        max_score,
    ) {
        return Err(Refusal::Bound);
    }
    Ok(())
}

// What the tail is refused for, of its VInts' values.
fn check_tail(
    file: &[u8],
    limit: u32,
    reader: FieldNormReader,
    x: Part,
    w: Bm25Weight,
    max_score: f32,
    block: &mut Block,
) -> Result<(), Refusal>
    requires { Against file.now x limit reader w max_score × Skipped file.now x
        × TailValues file.now x (docs_of block.old) (freqs_of block.old)
        × (last_before file.now x (full_blocks x) ≡ previous_doc file.now x (full_blocks x)) }
    ensures { refusal_number result ≡ block_refusal file.now x (full_blocks x) }
{
    sized(block);
    let b = x.count / 128;
    let n = x.count % 128;
    let previous = last_before(file, x, b);
    if !documents(&mut block[DOCS], n, false, b == 0, previous, limit, false) {
        return Err(Refusal::Documents);
    }
    if !frequencies(&mut block[FREQS], n, false) {
        return Err(Refusal::Frequencies);
    }
    if !scores_covered(file, reader, x, w, n, max_score, block) {
        return Err(Refusal::Bound);
    }
    Ok(())
}

// What the full blocks are refused for. After a 7 nothing lower can come, and the later blocks have no previous document.
fn check_blocks(
    file: &[u8],
    limit: u32,
    reader: FieldNormReader,
    x: Part,
    w: Bm25Weight,
    max_score: f32,
) -> Result<(), Refusal>
    requires { Against file.now x limit reader w max_score × BlocksIn file.now x }
    ensures { refusal_number result ≡ blocks_refusal file.now x (full_blocks x) }
{
    let blocks = x.count / 128;
    let mut block = [[0u32; 128]; 2];
    let mut lowest = Ok(());
    let mut at = x.postings;
    for b in 0..blocks {
        let e = read_skip_entry(file, x, b);
        let found = check_packed(file, limit, x, e, b, at, &mut block);
        if found == Err(Refusal::Documents) {
            return found;
        }
        let r = check_block(file, limit, reader, x, w, max_score, e, b, found, &block);
        lowest = lower_of(lowest, r);
        at += 16 * ((e.doc_bits + e.freq_bits) as usize);
    }
    lowest
}

// What a list is refused for: 5 to 9, or nothing. Its norms are lent, as those of other lists of the same average.
pub fn check_list(
    file: &[u8],
    limit: u32,
    reader: FieldNormReader,
    x: Part,
    norms: &[f32; 256],
) -> Result<(), Refusal>
    requires { Parted file.now x × Limits x × NormsIn x norms.now
        × (limit ≡ documents file.now) × (limit ≤ 1048576) × (reader ≡ norm_reader file.now) }
    ensures { refusal_number result ≡ list_refusal file.now x }
{
    let at = tail_place(file, x)?;
    let mut block = [[0u32; 128]; 2];
    if !read_tail(file, x, at, &mut block) {
        return Err(Refusal::Postings);
    }
    let w = weight_of(x, norms);
    let max_score = w.max_score(Scoring::Unstepped);
    let full = check_blocks(file, limit, reader, x, w, max_score);
    if full == Err(Refusal::Documents) {
        return full;
    }
    lower_of(
        full,
        check_tail(file, limit, reader, x, w, max_score, &mut block),
    )
}
