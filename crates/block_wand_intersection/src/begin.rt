// Where a run begins.
ghost use Rattle.std.specs.Prelude.{◌≡◌, ◌≤◌, ◌<◌, take};
ghost use Rattle.arrays.specs.Every.{All};
ghost use Rattle.term_scorer.specs.Inner.Slots.{held};
ghost use Rattle.term_scorer.specs.Inner.Weights.{TopRead};
ghost use Rattle.intersection_order.specs.Inner.Scorers.{query};
ghost use Rattle.block_wand_intersection.specs.Inner.Beginnings.{Begins, FreshSlots, top_sum};

use intersection_order::order::by_size;
use intersection_stage::{Intersection, Stage};
use slot_rows::place::{Blocks, Places};
use term_scorer::score::Similarity;
use term_scorer::{score, slot};

// `leader_max_score + secondaries_global_max_sum`.
fn max_score_sum(lists: &[[usize; 8]; 16], n: usize, order: &[usize; 16]) -> f32
    requires { (0 < n) × (n ≤ 16) × All (TopRead lists.now) (take n order.now) }
    ensures { result ≡ top_sum lists.now n order.now }
{
    let mut sum = 0.0f32;
    for i in 1..n {
        sum += score::max_score(lists, order[i]);
    }
    score::max_score(lists, order[0]) + sum
}

// `block_wand_intersection` up to its early exit, over n lists that are fresh in their slots: the rarest leads.
pub fn begin(
    file: &[u8],
    similarity: Similarity,
    lists: &[[usize; 8]; 16],
    norms: &[[f32; 256]; 16],
    n: usize,
    order: &mut [usize; 16],
    places: &Places,
    blocks: &Blocks,
) -> Intersection
    requires { let asked = query similarity file.now lists.now norms.now n order.old in
        FreshSlots asked (held places.now blocks.now) }
    ensures { let asked = query similarity file.now lists.now norms.now n order.new in
        Begins asked (held places.now blocks.now) result }
{
    by_size(n, lists, order);
    let max_sum = max_score_sum(lists, n, order);
    let leader = order[0];
    let doc = slot::doc(leader, places, blocks);
    Intersection {
        len: n,
        doc,
        max_sum,
        stage: Stage::Early,
    }
}
