// What is found by the scorers' documents and list bounds: the pivot, the scorer to seek, and how far it may.
ghost use Rattle.std.specs.Prelude.{List, map, ◌≡◌, ℕ, ◌+◌, ◌≤◌, ◌<◌, drop, take};
ghost use Rattle.route.specs.F32.{f32};
ghost use Rattle.arrays.specs.Every.{All};
ghost use Rattle.ordering.specs.Inner.Pivots.{before_pivot, count_on, pivot_of, place_to_seek};
ghost use Rattle.ordering.specs.Inner.Scorers.{least_doc_of};
ghost use Rattle.term_scorer.specs.Inner.Weights.{TopRead};
ghost use Rattle.ordering.specs.Inner.Rows.{Readable};
ghost use Rattle.slot_pivot.specs.Inner.Terms.{term_in};

use notefile::block::TERMINATED;
use ordering::Pivot;
use slot_rows::place::{Blocks, Places};
use term_scorer::{score, slot};

// How many scorers stand before the one with which the list bounds exceed the threshold: all, if they never do.
fn before_pivot(order: &[usize; 16], n: usize, lists: &[[usize; 8]; 16], threshold: f32) -> usize
    requires { (n ≤ 16) × All (TopRead lists.now) (take n order.now) }
    ensures { (places : List (List ℕ)) (blocks : List (List (List ℕ)))
        → result ≡ before_pivot threshold f32.nil (take n (map (term_in lists.now places blocks) order.now)) }
{
    let mut max_score = 0.0f32;
    for i in 0..n {
        max_score += score::max_score(lists, order[i]);
        if max_score > threshold {
            return i;
        }
    }
    n
}

// The first place from `from` on whose scorer does not stand on doc.
fn end_of_pivot(
    order: &[usize; 16],
    n: usize,
    from: usize,
    doc: u32,
    places: &Places,
    blocks: &Blocks,
) -> usize
    requires { (from ≤ n) × (n ≤ 16) × All (Readable places.now) (take n order.now) }
    ensures { (lists : List (List ℕ))
        → result ≡ from + count_on doc (drop from (take n (map (term_in lists places.now blocks.now) order.now))) }
{
    for i in from..n {
        if slot::doc(order[i], places, blocks) != doc {
            return i;
        }
    }
    n
}

// The lowest document that can exceed the threshold, by the list bounds of the scorers up to it; none, if no document can.
pub fn find_pivot_doc(
    order: &[usize; 16],
    n: usize,
    lists: &[[usize; 8]; 16],
    threshold: f32,
    places: &Places,
    blocks: &Blocks,
) -> Option<Pivot>
    requires { (n ≤ 16) × All (TopRead lists.now) (take n order.now)
        × All (Readable places.now) (take n order.now) }
    ensures { result ≡ pivot_of threshold (take n (map (term_in lists.now places.now blocks.now) order.now)) }
{
    let before_pivot_len = before_pivot(order, n, lists, threshold);
    if n <= before_pivot_len {
        return None;
    }
    let pivot_doc = slot::doc(order[before_pivot_len], places, blocks);
    if pivot_doc == TERMINATED {
        return None;
    }
    let pivot_len = end_of_pivot(order, n, before_pivot_len + 1, pivot_doc, places, blocks);
    Some(Pivot {
        before_pivot_len,
        pivot_len,
        pivot_doc,
    })
}

// The place of the highest list bound among the first len scorers, the last among equals.
pub fn scorer_to_seek(order: &[usize; 16], len: usize, lists: &[[usize; 8]; 16]) -> usize
    requires { (0 < len) × (len ≤ 16) × All (TopRead lists.now) (take len order.now) }
    ensures { (places : List (List ℕ)) (blocks : List (List (List ℕ)))
        → result ≡ place_to_seek (take len (map (term_in lists.now places blocks) order.now)) }
{
    let mut at = len - 1;
    let mut highest = score::max_score(lists, order[at]);
    for i in (0..len - 1).rev() {
        let max_score = score::max_score(lists, order[i]);
        if max_score > highest {
            highest = max_score;
            at = i;
        }
    }
    at
}

// The least of `from` and the documents of the scorers behind the first len.
pub fn least_doc(
    order: &[usize; 16],
    n: usize,
    len: usize,
    from: u32,
    places: &Places,
    blocks: &Blocks,
) -> u32
    requires { (len ≤ n) × (n ≤ 16) × All (Readable places.now) (take n order.now) }
    ensures { (lists : List (List ℕ))
        → result ≡ least_doc_of from (drop len (take n (map (term_in lists places.now blocks.now) order.now))) }
{
    let mut least = from;
    for i in len..n {
        let doc = slot::doc(order[i], places, blocks);
        least = least.min(doc);
    }
    least
}
