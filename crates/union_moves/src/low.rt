// Past blocks that are too low: one scorer goes on.
ghost use Rattle.std.specs.Prelude.{◌≡◌, ◌≤◌, ◌<◌, take};
ghost use Rattle.arrays.specs.Every.{All};
ghost use Rattle.route.specs.Union.{behind};
ghost use Rattle.term_scorer.specs.Inner.Slots.{held};
ghost use Rattle.term_scorer.specs.Inner.Weights.{TopRead};
ghost use Rattle.union_moves.specs.Inner.Seats.{Lined};
ghost use Rattle.union_moves.specs.Inner.Moves.{least_last_of, LastRead, TooLow};

use notefile::block::TERMINATED;
use ordering_lent::restored;
use slot_pivot::pivot::{least_doc, scorer_to_seek};
use slot_pivot::structs::{in_order, keep_order};
use slot_rows::place::{Blocks, Places};
use term_scorer::slot;

// The least last document of the first scorers' present blocks.
fn least_last_doc(order: &[usize; 16], pivot_len: usize, places: &Places) -> u32
    requires { (pivot_len ≤ 16) × All (LastRead places.now) (take pivot_len order.now) }
    ensures { result ≡ least_last_of places.now 2147483647 (take pivot_len order.now) }
{
    let mut least = TERMINATED;
    for i in 0..pivot_len {
        least = least.min(slot::last_doc_in_block(order[i], places));
    }
    least
}

// One document further, unless there is none.
fn behind(last: u32) -> u32
    requires { last ≤ 2147483647 }
    ensures { result ≡ behind last }
{
    if last == TERMINATED {
        return last;
    }
    last + 1
}

// The scorer with the highest list bound goes past the first of the present blocks to end, but not past a scorer behind the pivot.
// The order is restored over scorer structs, as 01 names it for a seek.
pub fn block_max_was_too_low_advance_one_scorer(
    file: &[u8],
    lists: &[[usize; 8]; 16],
    n: usize,
    pivot_len: usize,
    order: &mut [usize; 16],
    places: &mut Places,
    blocks: &mut Blocks,
)
    requires { let slots = held places.old blocks.old in
        (0 < pivot_len) × (pivot_len ≤ n) × (n ≤ 16)
        × Lined file.now lists.now slots (take n order.old) × All (TopRead lists.now) (take n order.old) }
    ensures { let old = held places.old blocks.old in
        let new = held places.new blocks.new in
        TooLow file.now lists.now old order.old n pivot_len new order.new }
{
    let doc_to_seek_after = least_last_doc(order, pivot_len, places);
    let target = least_doc(
        order,
        n,
        pivot_len,
        behind(doc_to_seek_after),
        places,
        blocks,
    );
    let at = scorer_to_seek(order, pivot_len, lists);
    let q = order[at];
    let doc = slot::doc(q, places, blocks);
    let _ = slot::seek(file, lists, q, doc, target, places, blocks);
    let scorers = in_order(order, n, lists, places, blocks);
    let moved = restored(scorers, at);
    keep_order(moved, order);
}
