// Block bounds: a full block's from its skip entry, a tail's from its scores once they are loaded.
#![tactic(auto)]

ghost use Rattle.std.specs.Prelude.{◌≡◌, min, ◌-◌, ◌≤◌, get_or, length};
ghost use Rattle.std.specs.Float.{nan};
ghost use Rattle.route.specs.Cursor.{block_max};
ghost use Rattle.route.specs.F32.{f32};
ghost use Rattle.bm25.specs.Scoring.{scored};
ghost use Rattle.block_norms.specs.Inner.Codes.{Below};
ghost use Rattle.notefile.specs.Header.{norm_reader};
ghost use Rattle.notefile.specs.Lists.{full_blocks};
ghost use Rattle.notefile.specs.Inner.Given.{WeightIn};
ghost use Rattle.notefile.specs.Inner.Reads.{docs_of, freqs_of, score_among};
ghost use Rattle.decoded.specs.Lists.{list_of};
ghost use Rattle.posting_bounds.specs.Inner.Bounds.{BoundsAhead, most_of};
ghost use Rattle.skip_reader.specs.Inner.Decoded.{ListIn};
ghost use Rattle.postings.specs.Inner.Places.{Placed, cursor_of};

use bm25::{Bm25Weight, Scoring};
use fieldnorm::FieldNormReader;
use notefile::block::{Block, DOCS, FREQS, TERMINATED};
use notefile::part::Part;
use notefile::skip::read_skip_entry;
use postings::cursor::SegmentPostings;
use skip_reader::skip::BlockInfo;

// The largest of the first n scores, or 0 where there is none.
fn max_score(scores: &[f32; 128], n: usize) -> f32
    requires { n ≤ 128 }
    ensures { result ≡ most_of (λ i. get_or scores.now i nan) n }
{
    if n == 0 {
        return 0.0;
    }
    let mut most = scores[0];
    for i in 1..n {
        most = floats::larger(most, scores[i]);
    }
    most
}

// The largest score of the first n postings.
fn tail_max_score(
    file: &[u8],
    norms: FieldNormReader,
    x: Part,
    w: Bm25Weight,
    scoring: Scoring,
    n: usize,
    block: &Block,
) -> f32
    requires { (norms ≡ norm_reader file.now) × WeightIn x w × (n ≤ 128) × Below 2147483648 (docs_of block.now) }
    ensures { result ≡ most_of (λ i. scored scoring (score_among file.now x (docs_of block.now) (freqs_of block.now) i)) n }
{
    let mut scores = [0.0f32; 128];
    bm25_block::score_block(
        file,
        norms,
        w,
        scoring,
        TERMINATED + 1,
        false,
        &block[DOCS],
        &block[FREQS],
        &mut scores,
    );
    max_score(&scores, n)
}

// The bound of the skip reader's block. A tail that is not loaded has the list bound.
pub fn block_max_score(
    file: &[u8],
    norms: FieldNormReader,
    x: Part,
    w: Bm25Weight,
    scoring: Scoring,
    p: SegmentPostings,
    block: &Block,
) -> f32
    requires { ListIn file.now x × (norms ≡ norm_reader file.now) × WeightIn x w × Placed file.now x p block.now }
    ensures { result ≡ block_max 128 f32 (list_of scoring file.now x) (cursor_of p) }
{
    let reader = p.skip_reader;
    let info = reader.block_info;
    match info {
        BlockInfo::BitPacked {
            doc_bits: _,
            strict: _,
            freq_bits: _,
            norm_code,
            freq_code,
        } => w.block_max_score(scoring, norm_code, freq_code),
        BlockInfo::VInt { num_docs } => {
            if p.block_loaded {
                return tail_max_score(file, norms, x, w, scoring, num_docs, block);
            }
            w.max_score(scoring)
        }
    }
}

// How many of the seven blocks from block b on are full.
fn full_ahead(blocks: usize, b: usize) -> usize
    requires { b ≤ blocks }
    ensures { result ≡ min (blocks - b) 7 }
{
    (blocks - b).min(7)
}

// The bounds of the seven blocks from block b on, as far as they are full, into a row from place `at` on: one struct serves them all.
pub fn bounds_ahead(
    file: &[u8],
    x: Part,
    w: Bm25Weight,
    scoring: Scoring,
    b: usize,
    at: usize,
    bounds: &mut [f32; 128],
)
    requires { ListIn file.now x × WeightIn x w × (b ≤ full_blocks x) × (at ≤ 121) }
    ensures { BoundsAhead (list_of scoring file.now x) b at bounds.old bounds.new }
{
    let n = full_ahead(x.count / 128, b);
    for k in 0..n {
        let e = read_skip_entry(file, x, b + k);
        let code = e.norm_code as usize;
        let bound = bm25::bound_at(scoring, w.weight, w.cache[code], e.freq_code);
        bounds[at + k] = bound;
    }
}
