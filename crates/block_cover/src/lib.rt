// Whether a bound lies below no score of a block: scores are compared in the loop that makes them, and no array of them is written.
#![tactic(auto)]

ghost use Rattle.std.specs.Prelude.{◌≡◌, ◌≤◌};
ghost use Rattle.bm25.specs.Bound.{all_covered};
ghost use Rattle.block_norms.specs.Inner.Codes.{Below};
ghost use Rattle.bm25_block.specs.Inner.Block.{ExactWhere, Rounds, posting_score, weighed_at};
ghost use Rattle.block_cover.specs.Inner.Cover.{block_covered};

use block_norms::{read_norms, read_norms_below};
use bm25::{Bm25Weight, Scoring};
use bm25_block::{all_exact, exact};
use fieldnorm::FieldNormReader;

// Whether the bound lies below none of the first n scores, each frequency made f32 by `to_f32`.
fn covered_by<F: Fn(u32) -> f32>(
    to_f32: F,
    weight: f32,
    norms: &[f32; 128],
    freqs: &[u32; 128],
    n: usize,
    bound: f32,
) -> bool
    requires { (n ≤ 128) × Rounds (F.pre to_f32) (F.post to_f32) n freqs.now }
    ensures { result ≡ all_covered bound n (weighed_at weight freqs.now norms.now) }
{
    let mut right = true;
    for i in 0..n {
        let tf = to_f32(freqs[i]);
        if bound < bm25::score_at(weight, norms[i], tf) {
            right = false;
        }
    }
    right
}

// Whether the bound lies below none of the first n scores. Nearly every block has no frequency above 2^24.
fn norms_covered(
    weight: f32,
    norms: &[f32; 128],
    small: bool,
    freqs: &[u32; 128],
    n: usize,
    bound: f32,
) -> bool
    requires { (n ≤ 128) × ExactWhere small freqs.now }
    ensures { result ≡ all_covered bound n (weighed_at weight freqs.now norms.now) }
{
    if all_exact(small, freqs) {
        return covered_by(|f| exact(f), weight, norms, freqs, n, bound);
    }
    covered_by(|f| floats::u32_to_f32(f), weight, norms, freqs, n, bound)
}

// Whether the bound lies below no score of the first n postings.
pub fn covered(
    file: &[u8],
    reader: FieldNormReader,
    w: Bm25Weight,
    docs: &[u32; 128],
    freqs: &[u32; 128],
    n: usize,
    bound: f32,
) -> bool
    requires { n ≤ 128 }
    ensures { result ≡ all_covered bound n (posting_score reader file.now w docs.now freqs.now) }
{
    let mut norms = [0.0f32; 128];
    read_norms(file, reader, &w.cache, docs, &mut norms);
    norms_covered(w.weight, &norms, false, freqs, n, bound)
}

// Whether neither the list's bound nor the block's own, from its skip entry's pair of codes, lies below a score of a full block.
// `small` says that f32 holds each frequency, which is then not looked at. The own bound is made of fields: a method would copy
// the struct.
pub fn block_covered(
    file: &[u8],
    reader: FieldNormReader,
    w: Bm25Weight,
    limit: u32,
    docs: &[u32; 128],
    freqs: &[u32; 128],
    small: bool,
    norm_code: u8,
    freq_code: u8,
    max_score: f32,
) -> bool
    requires { Below limit docs.now × ExactWhere small freqs.now }
    ensures { result ≡ block_covered reader file.now w docs.now freqs.now norm_code freq_code max_score }
{
    let code = norm_code as usize;
    let own = bm25::bound_at(Scoring::Unstepped, w.weight, w.cache[code], freq_code);
    let low = if own < max_score { own } else { max_score };
    let mut norms = [0.0f32; 128];
    read_norms_below(file, reader, &w.cache, docs, limit, &mut norms);
    norms_covered(w.weight, &norms, small, freqs, 128, low)
}
