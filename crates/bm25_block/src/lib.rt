// The scores of a block's postings: each posting's norm is read first, and the float work is a loop of its own.
#![tactic(auto)]

ghost use Rattle.std.specs.Prelude.{◌≡◌, true, ◌≤◌};
ghost use Rattle.floats.specs.Whole.{whole_f32};
ghost use Rattle.bm25.specs.declared.Scoring.TheVariants.{Unstepped, Stepped};
ghost use Rattle.block_norms.specs.Inner.Codes.{Below};
ghost use Rattle.bm25_block.specs.Inner.Block.{Weighed, CutDown, ScoredBy, Scored, ExactWhere, Rounds, all_exact};

use block_norms::{all_at_most, read_norms_below};
use bm25::{Bm25Weight, Scoring};
use fieldnorm::FieldNormReader;

// Whether every frequency is a whole number that f32 holds. Where `small` says so, they are not looked at.
pub fn all_exact(small: bool, term_freqs: &[u32; 128]) -> bool
    requires { ExactWhere small term_freqs.now }
    ensures { result ≡ all_exact term_freqs.now }
{
    if small {
        return true;
    }
    all_at_most(term_freqs, 16777216)
}

// A whole number that f32 holds. By the remainder the compiler sees that it is small, and converts it as a signed one, four at a time.
pub fn exact(n: u32) -> f32
    requires { n ≤ 16777216 }
    ensures { result ≡ whole_f32 n }
{
    (n % 33554432) as f32
}

// Scores in place of norms, each frequency made f32 by `to_f32`.
fn weigh_by<F: Fn(u32) -> f32>(
    to_f32: F,
    weight: f32,
    term_freqs: &[u32; 128],
    scores: &mut [f32; 128],
)
    requires { Rounds (F.pre to_f32) (F.post to_f32) 128 term_freqs.now }
    ensures { Weighed weight term_freqs.now scores.old scores.new }
{
    for i in 0..128 {
        let tf = to_f32(term_freqs[i]);
        scores[i] = bm25::score_at(weight, scores[i], tf);
    }
}

// Scores in place of norms. Nearly every block has no frequency above 2^24, and then the loop has no branch.
fn weigh(weight: f32, small: bool, term_freqs: &[u32; 128], scores: &mut [f32; 128])
    requires { ExactWhere small term_freqs.now }
    ensures { Weighed weight term_freqs.now scores.old scores.new }
{
    if all_exact(small, term_freqs) {
        weigh_by(|n| exact(n), weight, term_freqs, scores);
    } else {
        weigh_by(|n| floats::u32_to_f32(n), weight, term_freqs, scores);
    }
}

// Each score cut down to the grid.
fn step_all(scores: &mut [f32; 128])
    ensures { CutDown scores.old scores.new }
{
    for score in scores.iter_mut() {
        *score = floats::step_down(*score);
    }
}

// The unstepped scores of 128 postings, by lent norms and a weight.
fn score_unstepped(
    file: &[u8],
    reader: FieldNormReader,
    cache: &[f32; 256],
    weight: f32,
    limit: u32,
    small: bool,
    docs: &[u32; 128],
    term_freqs: &[u32; 128],
    scores: &mut [f32; 128],
)
    requires { Below limit docs.now × ExactWhere small term_freqs.now }
    ensures { ScoredBy reader file.now cache.now weight Unstepped docs.now term_freqs.now scores.new }
{
    read_norms_below(file, reader, cache, docs, limit, scores);
    weigh(weight, small, term_freqs, scores);
}

// The stepped scores of 128 postings, by lent norms and a weight.
fn score_stepped(
    file: &[u8],
    reader: FieldNormReader,
    cache: &[f32; 256],
    weight: f32,
    limit: u32,
    small: bool,
    docs: &[u32; 128],
    term_freqs: &[u32; 128],
    scores: &mut [f32; 128],
)
    requires { Below limit docs.now × ExactWhere small term_freqs.now }
    ensures { ScoredBy reader file.now cache.now weight Stepped docs.now term_freqs.now scores.new }
{
    score_unstepped(
        file, reader, cache, weight, limit, small, docs, term_freqs, scores,
    );
    step_all(scores);
}

// The scores of 128 postings, by their documents, each one of the first `limit`, and frequencies; `small` says that f32 holds each.
// `score_unstepped` is called from two places, so the compiler keeps it a function of its own and sets this one into its caller:
// the struct is not copied again.
pub fn score_block(
    file: &[u8],
    reader: FieldNormReader,
    w: Bm25Weight,
    scoring: Scoring,
    limit: u32,
    small: bool,
    docs: &[u32; 128],
    term_freqs: &[u32; 128],
    scores: &mut [f32; 128],
)
    requires { Below limit docs.now × ExactWhere small term_freqs.now }
    ensures { Scored reader file.now w scoring docs.now term_freqs.now scores.new }
{
    let weight = w.weight;
    match scoring {
        Scoring::Unstepped => score_unstepped(
            file, reader, &w.cache, weight, limit, small, docs, term_freqs, scores,
        ),
        Scoring::Stepped => score_stepped(
            file, reader, &w.cache, weight, limit, small, docs, term_freqs, scores,
        ),
    }
}
