// Block bounds by slot: those that are known, those that stand ready, and those of tails.
#![tactic(auto)]

ghost use Rattle.std.specs.Prelude.{◌≡◌, ◌≤◌, ◌<◌};
ghost use Rattle.route.specs.Cursor.{block_max};
ghost use Rattle.route.specs.F32.{f32};
ghost use Rattle.decoded.specs.Lists.{list_of};
ghost use Rattle.notefile.specs.Header.{norm_reader};
ghost use Rattle.notefile.specs.Lists.{full_blocks};
ghost use Rattle.notefile.specs.Inner.Given.{NormsIn};
ghost use Rattle.skip_reader.specs.Inner.Decoded.{ListIn};
ghost use Rattle.slot_rows.specs.Inner.Rows.{cursor_in, part_in, PartRow, PlaceIn};
ghost use Rattle.term_scorer.specs.Inner.Slots.{cursor_at, held, part_at, SlotIn, StandingIn};
ghost use Rattle.term_scorer.specs.Inner.Weights.{BoundKept, Weighed};
ghost use Rattle.slot_bounds.specs.Inner.Bounds.{block_max_at, Bounded, Readied};

use bm25::Scoring;
use notefile::block::Block;
use posting_bounds::{block_max_score, bounds_ahead};
use slot_rows::place::{
    AHEAD, BLOCK, BOUND, Blocks, COUNT, KNOWN, LOADED, Place, Places, part_of, postings_of,
    weight_of,
};
use term_scorer::score::{Similarity, weight_in};

// The bound of a tail.
fn tail_bound(
    file: &[u8],
    similarity: Similarity,
    list: &[usize; 8],
    norms: &[f32; 256],
    place: &Place,
    block: &Block,
) -> f32
    requires { (similarity.norms ≡ norm_reader file.now) × PartRow list.now × ListIn file.now (part_in list.now)
        × PlaceIn file.now (part_in list.now) place.now block.now × NormsIn (part_in list.now) norms.now }
    ensures { result ≡ block_max 128 f32 (list_of similarity.scoring file.now (part_in list.now)) (cursor_in place.now) }
{
    let reader = similarity.norms;
    let scoring = similarity.scoring;
    let w = weight_of(list, norms);
    let x = part_of(list);
    let p = postings_of(file, x, place);
    block_max_score(file, reader, x, w, scoring, p, block)
}

// The bound that slot q keeps of its block, the Rust's `block_max_score_cache`. Nobody else reads the flag.
fn cached(q: usize, places: &Places, bounds: &[f32; 128]) -> Option<f32>
    requires { q < 16 }
    ensures { result ≡ block_max_at places.now bounds.now q }
{
    if places[q][BOUND] == KNOWN {
        return Some(bounds[q]);
    }
    None
}

// The bound of slot q's block, a full one, where it stands ready. Else it is worked out, and those of the six blocks that follow,
// with one copy of the struct: a skip reader goes on block by block.
fn ready_bound(
    file: &[u8],
    scoring: Scoring,
    lists: &[[usize; 8]; 16],
    norms: &[[f32; 256]; 16],
    q: usize,
    block: usize,
    places: &mut Places,
    bounds: &mut [f32; 128],
) -> f32
    requires { (q < 16) × StandingIn file.now lists.now places.old q × Weighed lists.now norms.now q
        × BoundKept scoring file.now lists.now places.old bounds.old q
        × (block ≡ (cursor_at places.old q).blk) × (block < full_blocks (part_at lists.now q)) }
    ensures { Readied scoring file.now lists.now q places.old bounds.old places.new bounds.new result }
{
    let first = 16 + 7 * q;
    let end = places[q][AHEAD];
    if block < end {
        if end <= block + 7 {
            return bounds[first + (block + 7 - end)];
        }
    }
    let x = part_of(&lists[q]);
    let w = weight_in(lists, norms, q);
    bounds_ahead(file, x, w, scoring, block, first, bounds);
    places[q][AHEAD] = block + 7;
    bounds[first]
}

// The bound of slot q's block, a tail, worked out, and kept once the tail is loaded.
fn tail_block_max(
    file: &[u8],
    similarity: Similarity,
    lists: &[[usize; 8]; 16],
    norms: &[[f32; 256]; 16],
    q: usize,
    places: &mut Places,
    blocks: &Blocks,
    bounds: &mut [f32; 128],
) -> f32
    requires { let slots = held places.old blocks.now in
        (q < 16) × (similarity.norms ≡ norm_reader file.now) × SlotIn file.now lists.now slots q
        × Weighed lists.now norms.now q
        × BoundKept similarity.scoring file.now lists.now places.old bounds.old q
        × (full_blocks (part_at lists.now q) ≤ (cursor_at places.old q).blk) }
    ensures { Bounded similarity.scoring file.now lists.now q places.old bounds.old places.new bounds.new result }
{
    let score = tail_bound(
        file, similarity, &lists[q], &norms[q], &places[q], &blocks[q],
    );
    bounds[q] = score;
    // It changes when the tail is loaded, so until then it is not kept.
    let lasts = places[q][LOADED] == 1;
    if lasts {
        places[q][BOUND] = KNOWN;
    }
    score
}

// The bound of slot q's block, found and kept.
pub fn new_block_max(
    file: &[u8],
    similarity: Similarity,
    lists: &[[usize; 8]; 16],
    norms: &[[f32; 256]; 16],
    q: usize,
    places: &mut Places,
    blocks: &Blocks,
    bounds: &mut [f32; 128],
) -> f32
    requires { let slots = held places.old blocks.now in
        (q < 16) × (similarity.norms ≡ norm_reader file.now) × SlotIn file.now lists.now slots q
        × Weighed lists.now norms.now q
        × BoundKept similarity.scoring file.now lists.now places.old bounds.old q }
    ensures { Bounded similarity.scoring file.now lists.now q places.old bounds.old places.new bounds.new result }
{
    let block = places[q][BLOCK];
    if lists[q][COUNT] / 128 <= block {
        return tail_block_max(file, similarity, lists, norms, q, places, blocks, bounds);
    }
    let scoring = similarity.scoring;
    let bound = ready_bound(file, scoring, lists, norms, q, block, places, bounds);
    bounds[q] = bound;
    places[q][BOUND] = KNOWN;
    bound
}

// `new_block_max` for a loop over scorers: most bounds are known, and this much can stand in the loop.
pub fn block_max(
    file: &[u8],
    similarity: Similarity,
    lists: &[[usize; 8]; 16],
    norms: &[[f32; 256]; 16],
    q: usize,
    places: &mut Places,
    blocks: &Blocks,
    bounds: &mut [f32; 128],
) -> f32
    requires { let slots = held places.old blocks.now in
        (q < 16) × (similarity.norms ≡ norm_reader file.now) × SlotIn file.now lists.now slots q
        × Weighed lists.now norms.now q
        × BoundKept similarity.scoring file.now lists.now places.old bounds.old q }
    ensures { Bounded similarity.scoring file.now lists.now q places.old bounds.old places.new bounds.new result }
{
    let known = cached(q, places, bounds);
    match known {
        Some(bound) => bound,
        None => new_block_max(file, similarity, lists, norms, q, places, blocks, bounds),
    }
}
