// The blocks that may hold the pivot, and the sum of their bounds.
ghost use Rattle.std.specs.Prelude.{◌≡◌, ℕ, ◌≤◌, take};
ghost use Rattle.notefile.specs.Header.{norm_reader};
ghost use Rattle.term_scorer.specs.Inner.Slots.{held};
ghost use Rattle.union_moves.specs.Inner.Seats.{Seated, terms, terms_of};
ghost use Rattle.union_moves.specs.Inner.Moves.{BlocksSought};

use slot_bounds::block_max;
use slot_rows::place::{Blocks, Places};
use term_scorer::score::Similarity;
use term_scorer::{BOUNDS, Floats, slot};

// Each of the first scorers' skip readers seeks the pivot. Their documents stay, and so does every other scorer.
pub fn seek_blocks(
    file: &[u8],
    similarity: Similarity,
    lists: &[[usize; 8]; 16],
    norms: &[[f32; 256]; 16],
    pivot_len: usize,
    pivot_doc: u32,
    order: &[usize; 16],
    places: &mut Places,
    blocks: &Blocks,
    floats: &mut Floats,
) -> f32
    requires { let T = terms similarity.scoring norms.now floats.old in
        let first = terms_of file.now lists.now similarity.scoring places.old (take pivot_len order.now) in
        (pivot_len ≤ 16) × (similarity.norms ≡ norm_reader file.now)
        × Seated file.now lists.now T (held places.old blocks.now) first }
    ensures { let T = terms similarity.scoring norms.now floats.old in
        let old = held places.old blocks.now in
        let new = held places.new blocks.now in
        ((n : ℕ) → pivot_len ≤ n
        → let l = terms_of file.now lists.now similarity.scoring places.old (take n order.now) in
        Seated file.now lists.now T old l
        → BlocksSought file.now lists.now T old pivot_doc pivot_len new floats.new result l) }
{
    let mut sum = 0.0f32;
    for i in 0..pivot_len {
        let q = order[i];
        slot::shallow_seek(file, lists, q, pivot_doc, places);
        sum += block_max(
            file,
            similarity,
            lists,
            norms,
            q,
            places,
            blocks,
            &mut floats[BOUNDS],
        );
    }
    sum
}
