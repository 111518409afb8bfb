// The scorers on the pivot: their scores' sum, and all of them to their next documents.
#![tactic(auto)]

ghost use Rattle.std.specs.Prelude.{map, ◌≡◌, ◌≤◌, ◌<◌, take};
ghost use Rattle.arrays.specs.Every.{All};
ghost use Rattle.route.specs.Score.{sum};
ghost use Rattle.route.specs.F32.{f32};
ghost use Rattle.route.specs.Scorer.{score_here};
ghost use Rattle.notefile.specs.Header.{norm_reader};
ghost use Rattle.term_scorer.specs.Inner.Slots.{held};
ghost use Rattle.term_scorer.specs.Inner.Weights.{FloatRows};
ghost use Rattle.union_moves.specs.Inner.Seats.{Inside, Lined, OnDocument, Unmoved, slot_scorer, terms};
ghost use Rattle.union_pivot.specs.Inner.Advances.{AdvancedAll};

use ordering::Pivot;
use slot_order::restore::{sort_by_doc, sweep};
use slot_rows::place::{Blocks, Places};
use slot_scores::kept_score;
use term_scorer::score::Leg;
use term_scorer::{Floats, slot};

// So many scorers, and the pivot among them.
#[derive(Clone, Copy)]
pub struct Span {
    pub len: usize,
    pub pivot: Pivot,
}

// The first scorers' scores on the document that they stand on, added in the order that the scorers have now. The scorers stay.
pub fn score_on_pivot(
    file: &[u8],
    leg: Leg,
    span: Span,
    lists: &[[usize; 8]; 16],
    norms: &[[f32; 256]; 16],
    order: &[usize; 16],
    places: &mut Places,
    blocks: &Blocks,
    floats: &mut Floats,
) -> f32
    requires { let T = terms leg.similarity.scoring norms.now floats.old in
        let slots = held places.old blocks.now in
        (span.pivot.pivot_len ≤ 16) × (leg.similarity.norms ≡ norm_reader file.now)
        × FloatRows floats.old × All (OnDocument file.now lists.now T slots) (take span.pivot.pivot_len order.now) }
    ensures { let old = held places.old blocks.now in
        let new = held places.new blocks.now in
        let slots = take span.pivot.pivot_len order.now in
        let first = map (slot_scorer file.now lists.now leg.similarity.scoring places.old) slots in
        (result ≡ sum f32 (map score_here first))
        × Unmoved file.now lists.now leg.similarity.scoring norms.now floats.old old floats.new new }
{
    let similarity = leg.similarity;
    let pivot_len = span.pivot.pivot_len;
    let mut sum = 0.0f32;
    for i in 0..pivot_len {
        let q = order[i];
        let score = kept_score(file, similarity, lists, norms, q, places, blocks, floats);
        sum += score;
    }
    sum
}

// The first scorers go on; the finished are taken out, and the rest is sorted. So many are left.
pub fn advance_all_scorers_on_pivot(
    file: &[u8],
    lists: &[[usize; 8]; 16],
    n: usize,
    pivot_len: usize,
    order: &mut [usize; 16],
    places: &mut Places,
    blocks: &mut Blocks,
) -> usize
    requires { let slots = held places.old blocks.old in
        (pivot_len ≤ n) × (n ≤ 16) × Lined file.now lists.now slots (take n order.old)
        × All (Inside lists.now slots) (take pivot_len order.old) }
    ensures { let old = held places.old blocks.old in
        let new = held places.new blocks.new in
        AdvancedAll file.now lists.now old order.old n pivot_len new order.new result }
{
    for i in 0..pivot_len {
        slot::step(file, lists, order[i], places, blocks);
    }
    let len = sweep(order, n, places, blocks);
    sort_by_doc(order, len, places, blocks);
    len
}
