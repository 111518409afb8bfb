// The hunt for a block whose bound is above the threshold, and the way into it.
#![tactic(auto)]

ghost use Rattle.std.specs.Prelude.{◌≡◌, ◌≤◌, ◌<◌};
ghost use Rattle.term_scorer.specs.Inner.Slots.{held, StandingIn};
ghost use Rattle.single_hunt.specs.Inner.Places.{is_done, on_walk, Skips};
ghost use Rattle.single_hunt.specs.Inner.Stands.{Ready, Stands, Entered, Hunted};
ghost use Rattle.single_hunt.specs.declared.Phase.TheVariants.{Hunt};

use notefile::block::TERMINATED;
use slot_bounds::new_block_max;
use slot_rows::place::{Blocks, Places};
use slot_scores::keep_scores;
use term_scorer::score::{Leg, Similarity};
use term_scorer::{BOUNDS, Floats, slot};

// At the hunt for a block; at the walk over one; behind a report, on its posting; returned.
#[derive(Clone, Copy)]
pub enum Phase {
    Hunt,
    Walk,
    Called,
    Over,
}

impl Phase {
    // Whether a block is walked.
    pub fn walks(self) -> bool
        ensures { result ≡ on_walk self }
    {
        matches!(self, Phase::Walk | Phase::Called)
    }

    // Whether the scan has returned.
    pub fn is_over(self) -> bool
        ensures { result ≡ is_done self }
    {
        matches!(self, Phase::Over)
    }
}

// Where a scan stands: the slot of its scorer, its `doc`, and what comes next.
#[derive(Clone, Copy)]
pub struct Single {
    pub slot: usize,
    pub doc: u32,
    pub phase: Phase,
}

// To the first posting of a block from `doc` on, with the scores of its block. Over where there is none.
fn enter(
    file: &[u8],
    similarity: Similarity,
    single: Single,
    lists: &[[usize; 8]; 16],
    norms: &[[f32; 256]; 16],
    places: &mut Places,
    blocks: &mut Blocks,
    floats: &mut Floats,
) -> Single
    requires { let slots = held places.old blocks.old in
        Ready file.now similarity lists.now norms.now single.slot slots floats.old × (single.doc ≤ 2147483647) }
    ensures { let old = held places.old blocks.old in
        let new = held places.new blocks.new in
        Entered file.now similarity lists.now norms.now single old result new floats.new }
{
    let q = single.slot;
    let here = slot::doc(q, places, blocks);
    let _ = slot::seek(file, lists, q, here, single.doc, places, blocks);
    let doc = slot::doc(q, places, blocks);
    if doc == TERMINATED {
        return Single {
            slot: q,
            doc,
            phase: Phase::Over,
        };
    }
    keep_scores(file, similarity, lists, norms, q, places, blocks, floats);
    Single {
        slot: q,
        doc,
        phase: Phase::Walk,
    }
}

// Past the block on which the skip reader stands. Over where it is the last, at document `end`.
pub fn skip(
    file: &[u8],
    lists: &[[usize; 8]; 16],
    q: usize,
    end: u32,
    places: &mut Places,
) -> Single
    requires { (q < 16) × StandingIn file.now lists.now places.old q }
    ensures { Skips file.now lists.now q end places.old places.new result }
{
    let last = slot::last_doc_in_block(q, places);
    if last == TERMINATED {
        return Single {
            slot: q,
            doc: end,
            phase: Phase::Over,
        };
    }
    let doc = last + 1;
    slot::seek_block(file, lists, q, doc, places);
    Single {
        slot: q,
        doc,
        phase: Phase::Hunt,
    }
}

// One turn of the hunt: into the block if its bound is above the threshold, else past it.
pub fn hunt(
    file: &[u8],
    leg: Leg,
    single: Single,
    lists: &[[usize; 8]; 16],
    norms: &[[f32; 256]; 16],
    places: &mut Places,
    blocks: &mut Blocks,
    floats: &mut Floats,
) -> Single
    requires { let slots = held places.old blocks.old in
        Stands file.now leg.similarity lists.now norms.now single slots floats.old × (single.phase ≡ Hunt) }
    ensures { let old = held places.old blocks.old in
        let new = held places.new blocks.new in
        Hunted file.now leg.similarity lists.now norms.now leg.threshold single old result new floats.new }
{
    let q = single.slot;
    let similarity = leg.similarity;
    let bound = new_block_max(
        file,
        similarity,
        lists,
        norms,
        q,
        places,
        blocks,
        &mut floats[BOUNDS],
    );
    if bound > leg.threshold {
        return enter(
            file, similarity, single, lists, norms, places, blocks, floats,
        );
    }
    skip(file, lists, q, single.doc, places)
}
