// One turn of the intersection, by its stage.
#![tactic(auto)]

ghost use Rattle.std.specs.Prelude.{◌<◌};
ghost use Rattle.term_scorer.specs.Inner.Slots.{held};
ghost use Rattle.intersection_order.specs.Inner.Scorers.{query};
ghost use Rattle.intersection_turn.specs.Inner.Stands.{AtCandidates, AtWindow, Stands};
ghost use Rattle.intersection_turn.specs.Inner.Turns.{TakesTurn};

use block_search::count_below;
use intersection_candidate::candidate::try_candidate;
use intersection_candidate::leader::{Candidates, next_candidate};
use intersection_stage::{Intersection, Stage, after_candidate, exit, quiet, within};
use intersection_window::window::{Window, next_window, sum_rests};
use notefile::block::{DOCS, TERMINATED};
use reports::Step;
use slot_rows::place::{Blocks, Places};
use slot_scores::keep_scores;
use term_scorer::score::Leg;
use term_scorer::{BOUNDS, Floats, RESTS, SCORES};

// A window: over where a list has run out, too low, or open.
fn window_turn(
    file: &[u8],
    leg: Leg,
    v: Intersection,
    lists: &[[usize; 8]; 16],
    norms: &[[f32; 256]; 16],
    order: &[usize; 16],
    places: &mut Places,
    blocks: &mut Blocks,
    floats: &mut Floats,
) -> Step<Intersection>
    requires { let asked = query leg.similarity file.now lists.now norms.now v.len order.now in
        Stands asked v (held places.old blocks.old) floats.old × AtWindow v × (v.doc < 2147483647) }
    ensures { let asked = query leg.similarity file.now lists.now norms.now v.len order.now in
        TakesTurn asked leg.threshold v (held places.old blocks.old) floats.old
        result (held places.new blocks.new) floats.new }
{
    let doc = v.doc;
    let window = next_window(
        file,
        leg,
        lists,
        norms,
        v.len,
        order,
        doc,
        places,
        blocks,
        &mut floats[BOUNDS],
    );
    match window {
        Window::Over => quiet(v, doc, Stage::Over),
        Window::Low(window_end) => quiet(v, window_end + 1, Stage::Window),
        Window::Open(window_end, block_max_sum) => {
            let q = order[0];
            let similarity = leg.similarity;
            keep_scores(file, similarity, lists, norms, q, places, blocks, floats);
            sum_rests(v.len, order, floats);
            let next = count_below(&blocks[q][DOCS], doc);
            let stage = within(next, window_end, leg.threshold - block_max_sum);
            quiet(v, doc, stage)
        }
    }
}

// One candidate against the secondaries; or the window has none left, and the next begins behind it.
fn within_turn(
    file: &[u8],
    leg: Leg,
    v: Intersection,
    left: Candidates,
    lists: &[[usize; 8]; 16],
    norms: &[[f32; 256]; 16],
    order: &[usize; 16],
    places: &mut Places,
    blocks: &mut Blocks,
    floats: &Floats,
) -> Step<Intersection>
    requires { let asked = query leg.similarity file.now lists.now norms.now v.len order.now in
        Stands asked v (held places.old blocks.old) floats.now × AtCandidates v left }
    ensures { let asked = query leg.similarity file.now lists.now norms.now v.len order.now in
        let old = held places.old blocks.old in
        let new = held places.new blocks.new in
        TakesTurn asked leg.threshold v old floats.now result new floats.now }
{
    let leader = order[0];
    let found = next_candidate(left, &blocks[leader][DOCS], &floats[SCORES + leader]);
    let Some((next, candidate)) = found else {
        return quiet(v, left.window_end + 1, Stage::Window);
    };
    let tried = try_candidate(
        file,
        leg,
        lists,
        norms,
        v.len,
        order,
        &floats[RESTS],
        candidate,
        places,
        blocks,
    );
    after_candidate(v, left, next, candidate, tried)
}

// One turn.
pub fn turn(
    file: &[u8],
    leg: Leg,
    v: Intersection,
    lists: &[[usize; 8]; 16],
    norms: &[[f32; 256]; 16],
    order: &[usize; 16],
    places: &mut Places,
    blocks: &mut Blocks,
    floats: &mut Floats,
) -> Step<Intersection>
    requires { let asked = query leg.similarity file.now lists.now norms.now v.len order.now in
        Stands asked v (held places.old blocks.old) floats.old }
    ensures { let asked = query leg.similarity file.now lists.now norms.now v.len order.now in
        let old = held places.old blocks.old in
        let new = held places.new blocks.new in
        TakesTurn asked leg.threshold v old floats.old result new floats.new }
{
    match v.stage {
        Stage::Early => exit(v, leg.threshold, Stage::Window),
        Stage::Window => {
            if v.doc >= TERMINATED {
                return quiet(v, v.doc, Stage::Over);
            }
            window_turn(file, leg, v, lists, norms, order, places, blocks, floats)
        }
        Stage::Within(left) => within_turn(
            file, leg, v, left, lists, norms, order, places, blocks, floats,
        ),
        Stage::Called(left) => exit(v, leg.threshold, Stage::Within(left)),
        Stage::Over => quiet(v, v.doc, Stage::Over),
    }
}
