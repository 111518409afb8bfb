// The scorers of a run. Each has a slot, where lent arrays keep its list's numbers, its place in the list,
// and the block that it decoded last.
#![tactic(auto)]

pub mod score;
pub mod slot;

// The floats of a run, in rows of 128: block bounds by slot, and behind them seven that stand ready for each slot;
// the intersection's sums of the bounds that follow, by place in its order;
// then a row for the scores of each slot's decoded block, by place in the block.
pub type Floats = [[f32; 128]; 18];

pub const BOUNDS: usize = 0;

pub const RESTS: usize = 1;

pub const SCORES: usize = 2;

// The document that a scorer stands on, its list bound, and the slot in which its list, its place there and its decoded
// block are kept.
#[derive(Clone, Copy)]
pub struct TermScorer {
    pub doc: u32,
    pub max_score: f32,
    pub slot: usize,
}
