// What scores are made with, and what a slot's row has of its list. The struct of a slot's list is made of its rows and goes by value.
ghost use Rattle.std.specs.Prelude.{◌≡◌, [], ◌<◌, get_or};
ghost use Rattle.notefile.specs.Inner.Given.{Limits, WeightIn};
ghost use Rattle.slot_rows.specs.Inner.Rows.{PartRow};
ghost use Rattle.term_scorer.specs.Inner.Slots.{part_at};
ghost use Rattle.term_scorer.specs.Inner.Weights.{top_at, TopRead, Weighed};

use bm25::{Bm25Weight, Scoring};
use fieldnorm::FieldNormReader;
use slot_rows::place::{MAX_SCORE, weight_of};

// What every score of a run is made with: the file's norm codes, and stepped scores or unstepped ones.
#[derive(Clone, Copy)]
pub struct Similarity {
    pub norms: FieldNormReader,
    pub scoring: Scoring,
}

// A leg of a run, from report to report: what scores are made with, the threshold that they must exceed, and how many turns it may take.
#[derive(Clone, Copy)]
pub struct Leg {
    pub similarity: Similarity,
    pub threshold: f32,
    pub turns: usize,
}

// The struct of slot q's list.
pub fn weight_in(lists: &[[usize; 8]; 16], norms: &[[f32; 256]; 16], q: usize) -> Bm25Weight
    requires { (q < 16) × PartRow (get_or lists.now q []) × Limits (part_at lists.now q) × Weighed lists.now norms.now q }
    ensures { WeightIn (part_at lists.now q) result }
{
    weight_of(&lists[q], &norms[q])
}

// The list bound of slot q, kept where the list was opened: no posting of its list scores more.
pub fn max_score(lists: &[[usize; 8]; 16], q: usize) -> f32
    requires { TopRead lists.now q }
    ensures { result ≡ top_at lists.now q }
{
    f32::from_bits(lists[q][MAX_SCORE] as u32)
}
