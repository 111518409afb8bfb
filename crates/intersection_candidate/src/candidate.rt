// A candidate of the leader against the secondaries, one after the other.
ghost use Rattle.std.specs.Prelude.{◌<◌};
ghost use Rattle.term_scorer.specs.Inner.Slots.{held};
ghost use Rattle.intersection_order.specs.Inner.Scorers.{query, InOrder, SlotsIn};
ghost use Rattle.intersection_candidate.specs.Inner.Candidates.{Tries};

use slot_rows::place::{Blocks, Places};
use term_scorer::score::Leg;
use term_scorer::slot;

// A posting of the leader, by its document and its score.
#[derive(Clone, Copy)]
pub struct Posting {
    pub doc: u32,
    pub score: f32,
}

// Each secondary seeks the candidate; one that is past it stays, and misses.
// The total goes on as long as the bounds of the rest may lift it above the threshold.
// The score that is due; or none, where a secondary lacks the candidate or it cannot exceed the threshold.
pub fn try_candidate(
    file: &[u8],
    leg: Leg,
    lists: &[[usize; 8]; 16],
    norms: &[[f32; 256]; 16],
    n: usize,
    order: &[usize; 16],
    rests: &[f32; 128],
    candidate: Posting,
    places: &mut Places,
    blocks: &mut Blocks,
) -> Option<f32>
    requires { let asked = query leg.similarity file.now lists.now norms.now n order.now in
        InOrder asked × SlotsIn asked (held places.old blocks.old) × (candidate.doc < 2147483647) }
    ensures { let asked = query leg.similarity file.now lists.now norms.now n order.now in
        let old = held places.old blocks.old in
        let new = held places.new blocks.new in
        Tries asked candidate.doc candidate.score leg.threshold rests.now old new result }
{
    let doc = candidate.doc;
    let mut total_score = candidate.score;
    for i in 1..n {
        let q = order[i];
        let at = slot::doc(q, places, blocks);
        let found = slot::seek(file, lists, q, at, doc, places, blocks);
        match found {
            Err(_) => return None,
            Ok(_) => {}
        }
        let score = slot_scores::score(file, leg.similarity, lists, norms, q, doc, places, blocks);
        total_score += score;
        if !(total_score + rests[i] > leg.threshold) {
            return None;
        }
    }
    if total_score > leg.threshold {
        return Some(total_score);
    }
    None
}
