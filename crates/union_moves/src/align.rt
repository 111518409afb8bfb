// The scorers before the pivot come onto it, or one goes past it.
ghost use Rattle.std.specs.Prelude.{◌≤◌, ◌<◌, take};
ghost use Rattle.term_scorer.specs.Inner.Slots.{held};
ghost use Rattle.union_moves.specs.Inner.Seats.{Lined};
ghost use Rattle.union_moves.specs.Inner.Moves.{Aligns};

use slot_order::restore::put_back;
use slot_rows::place::{Blocks, Places};
use term_scorer::slot;

// How many scorers are left, and whether all came to the pivot: both say something in either case, so that no Option would do.
#[derive(Clone, Copy)]
pub struct Alignment {
    pub len: usize,
    pub on_pivot: bool,
}

// From the last to the first, until one goes past the pivot, which is then put in its place, or out if it is finished.
pub fn align_scorers(
    file: &[u8],
    lists: &[[usize; 8]; 16],
    n: usize,
    before_pivot_len: usize,
    pivot_doc: u32,
    order: &mut [usize; 16],
    places: &mut Places,
    blocks: &mut Blocks,
) -> Alignment
    requires { let slots = held places.old blocks.old in
        (before_pivot_len < n) × (n ≤ 16) × (pivot_doc < 2147483647)
        × Lined file.now lists.now slots (take n order.old) }
    ensures { let old = held places.old blocks.old in
        let new = held places.new blocks.new in
        Aligns file.now lists.now pivot_doc old order.old n before_pivot_len new order.new result }
{
    for i in (0..before_pivot_len).rev() {
        let q = order[i];
        let at = slot::doc(q, places, blocks);
        let found = slot::seek(file, lists, q, at, pivot_doc, places, blocks);
        match found {
            Ok(_) => {}
            Err(_) => {
                let len = put_back(order, n, i, places, blocks);
                return Alignment {
                    len,
                    on_pivot: false,
                };
            }
        }
    }
    Alignment {
        len: n,
        on_pivot: true,
    }
}
