// The intersection's skipping run, by turns: windows in which all block bounds hold, and in each the leader's candidates
// against the secondaries. A run goes on from where it stands, and what it needs to do so stands in lent tables and a small struct.
#![tactic(auto)]

pub mod begin;

ghost use Rattle.std.specs.Prelude.{◌≡◌};
ghost use Rattle.term_scorer.specs.Inner.Slots.{held};
ghost use Rattle.intersection_order.specs.Inner.Scorers.{query};
ghost use Rattle.intersection_turn.specs.Inner.Stands.{Stands};
ghost use Rattle.block_wand_intersection.specs.Inner.Runs.{Goes};

use intersection_stage::{Intersection, is_over};
use intersection_turn::turn;
use reports::{Event, Gone};
use slot_rows::place::{Blocks, Places};
use term_scorer::Floats;
use term_scorer::score::Leg;

// On by turns under one threshold: to the next report that is due, to the end, or through all turns that are allowed.
pub fn go(
    file: &[u8],
    leg: Leg,
    intersection: Intersection,
    lists: &[[usize; 8]; 16],
    norms: &[[f32; 256]; 16],
    order: &[usize; 16],
    places: &mut Places,
    blocks: &mut Blocks,
    floats: &mut Floats,
) -> Gone<Intersection>
    requires { let asked = query leg.similarity file.now lists.now norms.now intersection.len order.now in
        Stands asked intersection (held places.old blocks.old) floats.old }
    ensures { let asked = query leg.similarity file.now lists.now norms.now intersection.len order.now in
        let old = held places.old blocks.old in
        let new = held places.new blocks.new in
        Goes asked leg.threshold leg.turns intersection old floats.old result new floats.new }
{
    let mut v = intersection;
    let mut taken = 0usize;
    loop {
        if is_over(v) {
            return Gone::new(v, taken, Event::Over);
        }
        if taken == leg.turns {
            return Gone::new(v, taken, Event::Paused);
        }
        let turned = turn(file, leg, v, lists, norms, order, places, blocks, floats);
        v = turned.to;
        taken += 1;
        if let Some((doc, score)) = turned.due {
            return Gone::new(v, taken, Event::Report(doc, score));
        }
    }
}
