// The scorers as structs in an array of 16, read off the tables in their order, and their slots written back.
ghost use Rattle.std.specs.Prelude.{map, ◌≡◌, ◌≤◌, take};
ghost use Rattle.arrays.specs.Every.{All};
ghost use Rattle.ordering.specs.Inner.Scorers.{slot_of};
ghost use Rattle.term_scorer.specs.Inner.Weights.{TopRead};
ghost use Rattle.ordering.specs.Inner.Rows.{Ordered, Readable};
ghost use Rattle.slot_pivot.specs.Inner.Terms.{term_in};

use ordering::Scorers;
use slot_rows::place::{Blocks, Places};
use term_scorer::{TermScorer, score, slot};

// The scorers of the first n slots.
pub fn in_order(
    order: &[usize; 16],
    n: usize,
    lists: &[[usize; 8]; 16],
    places: &Places,
    blocks: &Blocks,
) -> Scorers
    requires { (n ≤ 16) × All (TopRead lists.now) (take n order.now)
        × All (Readable places.now) (take n order.now) }
    ensures { let scorers = map (term_in lists.now places.now blocks.now) (take n order.now) in
        (result.len ≡ n) × (take n result.scorers ≡ scorers) }
{
    let mut out = [TermScorer {
        doc: 0,
        max_score: 0.0,
        slot: 0,
    }; 16];
    for i in 0..n {
        let q = order[i];
        let doc = slot::doc(q, places, blocks);
        out[i] = TermScorer {
            doc,
            max_score: score::max_score(lists, q),
            slot: q,
        };
    }
    Scorers {
        scorers: out,
        len: n,
    }
}

// The scorers' slots, in their order.
pub fn keep_order(scorers: Scorers, order: &mut [usize; 16])
    requires { scorers.len ≤ 16 }
    ensures { let slots = map slot_of (take scorers.len scorers.scorers) in
        Ordered scorers.len order.old scorers.len slots order.new }
{
    for i in 0..scorers.len {
        order[i] = scorers.scorers[i].slot;
    }
}
