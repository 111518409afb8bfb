// One turn of `block_wand`'s loop, which ends at its report: before one, or behind one, the turn is the rest.
#![tactic(auto)]

ghost use Rattle.std.specs.Prelude.{◌≡◌, ◌≤◌, take};
ghost use Rattle.arrays.specs.Every.{All};
ghost use Rattle.notefile.specs.Header.{norm_reader};
ghost use Rattle.term_scorer.specs.Inner.Slots.{held};
ghost use Rattle.union_moves.specs.Inner.Seats.{OnDocument, Seated, terms, terms_of};
ghost use Rattle.union_turn.specs.Inner.Turns.{AtPivot, Hit, Pivoted, ToPivot, Turned, quiet_step};
ghost use Rattle.union_turn.specs.Inner.Runs.{Stands};
ghost use Rattle.union_turn.specs.declared.Stage.TheVariants.{Looking};

use reports::Step;
use slot_pivot::pivot::find_pivot_doc;
use slot_rows::place::{Blocks, Places};
use term_scorer::Floats;
use term_scorer::score::Leg;
use union_moves::align::align_scorers;
use union_moves::blocks::seek_blocks;
use union_moves::low::block_max_was_too_low_advance_one_scorer;
use union_pivot::{Span, advance_all_scorers_on_pivot, score_on_pivot};

// Before a pivot is looked for; behind a report, with so many scorers on its document that have still to go on; returned.
#[derive(Clone, Copy)]
pub enum Stage {
    Looking,
    Called(usize),
    Over,
}

// What of a union's run stands in no table: how many scorers are left, and its stage.
#[derive(Clone, Copy)]
pub struct Union {
    pub len: usize,
    pub stage: Stage,
}

// No document is due.
fn quiet(len: usize, stage: Stage) -> Step<Union>
    ensures { result ≡ quiet_step len stage }
{
    Step {
        to: Union { len, stage },
        due: None,
    }
}

// All of the first scorers stand on the pivot: it is scored. They go on, unless a report is due, which comes first.
fn hit(
    file: &[u8],
    leg: Leg,
    span: Span,
    lists: &[[usize; 8]; 16],
    norms: &[[f32; 256]; 16],
    order: &mut [usize; 16],
    places: &mut Places,
    blocks: &mut Blocks,
    floats: &mut Floats,
) -> Step<Union>
    requires { let T = terms leg.similarity.scoring norms.now floats.old in
        let slots = held places.old blocks.old in
        let l = terms_of file.now lists.now leg.similarity.scoring places.old (take span.len order.old) in
        (span.pivot.pivot_len ≤ span.len) × (span.len ≤ 16) × (leg.similarity.norms ≡ norm_reader file.now)
        × Seated file.now lists.now T slots l
        × All (OnDocument file.now lists.now T slots) (take span.pivot.pivot_len order.old) }
    ensures { let T = terms leg.similarity.scoring norms.now floats.old in
        let old = held places.old blocks.old in
        let new = held places.new blocks.new in
        Hit file.now lists.now T leg.threshold old order.old span.len
        span.pivot.pivot_len span.pivot.pivot_doc new order.new floats.new result }
{
    let n = span.len;
    let pivot_len = span.pivot.pivot_len;
    let score = score_on_pivot(file, leg, span, lists, norms, order, places, blocks, floats);
    if score > leg.threshold {
        let stage = Stage::Called(pivot_len);
        return Step {
            to: Union { len: n, stage },
            due: Some((span.pivot.pivot_doc, score)),
        };
    }
    let len = advance_all_scorers_on_pivot(file, lists, n, pivot_len, order, places, blocks);
    quiet(len, Stage::Looking)
}

// The scorers before the pivot are sent to it.
fn on_pivot(
    file: &[u8],
    leg: Leg,
    span: Span,
    lists: &[[usize; 8]; 16],
    norms: &[[f32; 256]; 16],
    order: &mut [usize; 16],
    places: &mut Places,
    blocks: &mut Blocks,
    floats: &mut Floats,
) -> Step<Union>
    requires { let scoring = leg.similarity.scoring in
        let slots = held places.old blocks.old in
        let l = terms_of file.now lists.now scoring places.old (take span.len order.old) in
        (span.len ≤ 16) × (leg.similarity.norms ≡ norm_reader file.now)
        × AtPivot file.now lists.now (terms scoring norms.now floats.old) slots l span }
    ensures { let T = terms leg.similarity.scoring norms.now floats.old in
        let old = held places.old blocks.old in
        let new = held places.new blocks.new in
        Pivoted file.now lists.now T leg.threshold old order.old span.len span new order.new floats.new result }
{
    let alignment = align_scorers(
        file,
        lists,
        span.len,
        span.pivot.before_pivot_len,
        span.pivot.pivot_doc,
        order,
        places,
        blocks,
    );
    if alignment.on_pivot {
        return hit(file, leg, span, lists, norms, order, places, blocks, floats);
    }
    quiet(alignment.len, Stage::Looking)
}

// The skip readers seek the pivot. Then one scorer goes past blocks that are too low, or the scorers go to the pivot.
fn to_pivot(
    file: &[u8],
    leg: Leg,
    span: Span,
    lists: &[[usize; 8]; 16],
    norms: &[[f32; 256]; 16],
    order: &mut [usize; 16],
    places: &mut Places,
    blocks: &mut Blocks,
    floats: &mut Floats,
) -> Step<Union>
    requires { let T = terms leg.similarity.scoring norms.now floats.old in
        let slots = held places.old blocks.old in
        (leg.similarity.norms ≡ norm_reader file.now)
        × ToPivot file.now lists.now T leg.threshold slots order.old span.len span }
    ensures { let T = terms leg.similarity.scoring norms.now floats.old in
        let old = held places.old blocks.old in
        let new = held places.new blocks.new in
        Turned file.now lists.now T leg.threshold Looking
        old order.old span.len new order.new floats.new result }
{
    let pivot_len = span.pivot.pivot_len;
    let upper_bound = seek_blocks(
        file,
        leg.similarity,
        lists,
        norms,
        pivot_len,
        span.pivot.pivot_doc,
        order,
        places,
        blocks,
        floats,
    );
    if upper_bound > leg.threshold {
        return on_pivot(file, leg, span, lists, norms, order, places, blocks, floats);
    }
    let n = span.len;
    block_max_was_too_low_advance_one_scorer(file, lists, n, pivot_len, order, places, blocks);
    quiet(n, Stage::Looking)
}

// A pivot, if there is one, and a step to it.
fn look(
    file: &[u8],
    leg: Leg,
    n: usize,
    lists: &[[usize; 8]; 16],
    norms: &[[f32; 256]; 16],
    order: &mut [usize; 16],
    places: &mut Places,
    blocks: &mut Blocks,
    floats: &mut Floats,
) -> Step<Union>
    requires { let scoring = leg.similarity.scoring in
        let slots = held places.old blocks.old in
        let u = (quiet_step n Looking).to in
        (leg.similarity.norms ≡ norm_reader file.now)
        × Stands file.now lists.now (terms scoring norms.now floats.old) u order.old slots }
    ensures { let T = terms leg.similarity.scoring norms.now floats.old in
        let old = held places.old blocks.old in
        let new = held places.new blocks.new in
        Turned file.now lists.now T leg.threshold Looking old order.old n new order.new floats.new result }
{
    let Some(pivot) = find_pivot_doc(order, n, lists, leg.threshold, places, blocks) else {
        return quiet(n, Stage::Over);
    };
    let span = Span { len: n, pivot };
    to_pivot(file, leg, span, lists, norms, order, places, blocks, floats)
}

// Behind a report the scorers on its document go on; over, nothing does.
pub fn turn(
    file: &[u8],
    leg: Leg,
    union: Union,
    lists: &[[usize; 8]; 16],
    norms: &[[f32; 256]; 16],
    order: &mut [usize; 16],
    places: &mut Places,
    blocks: &mut Blocks,
    floats: &mut Floats,
) -> Step<Union>
    requires { let scoring = leg.similarity.scoring in
        let slots = held places.old blocks.old in
        (leg.similarity.norms ≡ norm_reader file.now)
        × Stands file.now lists.now (terms scoring norms.now floats.old) union order.old slots }
    ensures { let T = terms leg.similarity.scoring norms.now floats.old in
        let old = held places.old blocks.old in
        let new = held places.new blocks.new in
        Turned file.now lists.now T leg.threshold union.stage old order.old union.len new
        order.new floats.new result }
{
    let n = union.len;
    match union.stage {
        Stage::Looking => look(file, leg, n, lists, norms, order, places, blocks, floats),
        Stage::Called(k) => {
            let len = advance_all_scorers_on_pivot(file, lists, n, k, order, places, blocks);
            quiet(len, Stage::Looking)
        }
        Stage::Over => quiet(n, Stage::Over),
    }
}
