// The candidates of a window, from the leader's block.
ghost use Rattle.std.specs.Prelude.{ℕ, ◌≤◌, Float};
ghost use Rattle.route.specs.Postings.{Postings};
ghost use Rattle.intersection_candidate.specs.Inner.Candidates.{BlockRows, Finds};

use crate::candidate::Posting;
use notefile::block::TERMINATED;

// The candidates left of an open window: from place `next` of the leader's block on, up to document window_end, above score_threshold.
#[derive(Clone, Copy)]
pub struct Candidates {
    pub next: usize,
    pub window_end: u32,
    pub score_threshold: f32,
}

// On to the first candidate: the leader's score has to be above score_threshold. Both rows are of its block, by place.
// The place behind it, and the candidate; or none is left.
pub fn next_candidate(
    left: Candidates,
    docs: &[u32; 128],
    scores: &[f32; 128],
) -> Option<(usize, Posting)>
    requires { left.next ≤ 128 }
    ensures { (l : Postings Float) (b : ℕ) → BlockRows l b docs.now scores.now → Finds l b left result }
{
    let window_end = left.window_end;
    let score_threshold = left.score_threshold;
    for i in left.next..128 {
        let doc = docs[i];
        if doc > window_end {
            return None;
        }
        if doc == TERMINATED {
            return None;
        }
        let score = scores[i];
        if score > score_threshold {
            return Some((i + 1, Posting { doc, score }));
        }
    }
    None
}
