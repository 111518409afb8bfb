// A window: all skip readers on the blocks that may hold a document, and the bounds of these blocks against the threshold.
ghost use Rattle.std.specs.Prelude.{◌≤◌, ◌<◌};
ghost use Rattle.term_scorer.specs.Inner.Slots.{held};
ghost use Rattle.term_scorer.specs.Inner.Weights.{FloatRows};
ghost use Rattle.intersection_order.specs.Inner.Scorers.{query, InOrder, Ready};
ghost use Rattle.intersection_order.specs.Inner.Sizes.{InSlots};
ghost use Rattle.intersection_window.specs.Inner.Windows.{Gathers, Sums, Turns};

use slot_bounds::{block_max, new_block_max};
use slot_rows::place::{Blocks, Places};
use term_scorer::score::{Leg, Similarity};
use term_scorer::{BOUNDS, Floats, RESTS, slot};

// Where the first of all present blocks ends, and the secondaries' bounds summed.
#[derive(Clone, Copy)]
pub struct Secondaries {
    pub window_end: u32,
    pub block_max_sum: f32,
}

// No more windows; a window too low, by its end; or an open one, by its end and the secondaries' bounds.
#[derive(Clone, Copy)]
pub enum Window {
    Over,
    Low(u32),
    Open(u32, f32),
}

// The secondaries go on to the blocks that may hold doc, up to the first that has none: then there is no window.
fn gather(
    file: &[u8],
    similarity: Similarity,
    lists: &[[usize; 8]; 16],
    norms: &[[f32; 256]; 16],
    n: usize,
    order: &[usize; 16],
    doc: u32,
    leader_end: u32,
    places: &mut Places,
    blocks: &Blocks,
    bounds: &mut [f32; 128],
) -> Option<Secondaries>
    requires { let asked = query similarity file.now lists.now norms.now n order.now in
        let slots = held places.old blocks.now in
        InOrder asked × Ready asked slots bounds.old × (doc ≤ 2147483647) }
    ensures { let asked = query similarity file.now lists.now norms.now n order.now in
        let old = held places.old blocks.now in
        Gathers asked doc leader_end old places.new bounds.new result }
{
    let mut window_end = leader_end;
    let mut block_max_sum = 0.0f32;
    for i in 1..n {
        let q = order[i];
        slot::shallow_seek(file, lists, q, doc, places);
        if !slot::has_remaining_docs(file, lists, q, places) {
            return None;
        }
        window_end = window_end.min(slot::last_doc_in_block(q, places));
        let bound = block_max(file, similarity, lists, norms, q, places, blocks, bounds);
        block_max_sum += bound;
    }
    Some(Secondaries {
        window_end,
        block_max_sum,
    })
}

// The window from doc on: over where a list has run out, else too low or open, the leader's block loaded.
pub fn next_window(
    file: &[u8],
    leg: Leg,
    lists: &[[usize; 8]; 16],
    norms: &[[f32; 256]; 16],
    n: usize,
    order: &[usize; 16],
    doc: u32,
    places: &mut Places,
    blocks: &mut Blocks,
    bounds: &mut [f32; 128],
) -> Window
    requires { let asked = query leg.similarity file.now lists.now norms.now n order.now in
        InOrder asked × Ready asked (held places.old blocks.old) bounds.old × (doc < 2147483647) }
    ensures { let asked = query leg.similarity file.now lists.now norms.now n order.now in
        Turns asked leg.threshold doc (held places.old blocks.old) result (held places.new blocks.new) bounds.new }
{
    let similarity = leg.similarity;
    let q = order[0];
    slot::seek_block(file, lists, q, doc, places);
    let leader_block_max = new_block_max(file, similarity, lists, norms, q, places, blocks, bounds);
    let leader_end = slot::last_doc_in_block(q, places);
    let gathered = gather(
        file, similarity, lists, norms, n, order, doc, leader_end, places, blocks, bounds,
    );
    let Some(found) = gathered else {
        return Window::Over;
    };
    if leader_block_max + found.block_max_sum > leg.threshold {
        slot::load(file, lists, q, places, blocks);
        return Window::Open(found.window_end, found.block_max_sum);
    }
    Window::Low(found.window_end)
}

// Behind each secondary the sum of the bounds that follow, added from the last on.
pub fn sum_rests(n: usize, order: &[usize; 16], floats: &mut Floats)
    requires { (0 < n) × (n ≤ 16) × InSlots n order.now × FloatRows floats.old }
    ensures { Sums n order.now floats.old floats.new }
{
    let mut running = 0.0f32;
    for i in (1..n).rev() {
        floats[RESTS][i] = running;
        let q = order[i];
        running += floats[BOUNDS][q];
    }
}
