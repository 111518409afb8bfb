// Turns in a row, under one threshold.
ghost use Rattle.std.specs.Prelude.{◌≡◌};
ghost use Rattle.route.specs.F32.{f32};
ghost use Rattle.route.specs.Union.{is_over, union_turn};
ghost use Rattle.notefile.specs.Header.{norm_reader};
ghost use Rattle.reports.specs.Inner.Turns.{Went};
ghost use Rattle.term_scorer.specs.Inner.Slots.{held};
ghost use Rattle.union_moves.specs.Inner.Seats.{terms};
ghost use Rattle.union_turn.specs.Inner.Turns.{stage_of};
ghost use Rattle.union_turn.specs.Inner.Runs.{Stands, place_of, union_ended};

use reports::{Event, Gone};
use slot_rows::place::{Blocks, Places};
use term_scorer::Floats;
use term_scorer::score::Leg;
use union_turn::{Stage, Union, turn};

fn is_over(union: Union) -> bool
    ensures { result ≡ is_over (stage_of union.stage) }
{
    matches!(union.stage, Stage::Over)
}

// Turn after turn, until a report is due, the route is over, or `turns` turns are taken.
pub fn go(
    file: &[u8],
    leg: Leg,
    union: Union,
    lists: &[[usize; 8]; 16],
    norms: &[[f32; 256]; 16],
    order: &mut [usize; 16],
    places: &mut Places,
    blocks: &mut Blocks,
    floats: &mut Floats,
) -> Gone<Union>
    requires { let scoring = leg.similarity.scoring in
        let slots = held places.old blocks.old in
        (leg.similarity.norms ≡ norm_reader file.now)
        × Stands file.now lists.now (terms scoring norms.now floats.old) union order.old slots }
    ensures { let scoring = leg.similarity.scoring in
        let slots = held places.new blocks.new in
        let from = place_of file.now lists.now scoring union order.old places.old in
        let to = place_of file.now lists.now scoring result.to order.new places.new in
        Stands file.now lists.now (terms scoring norms.now floats.new) result.to order.new slots
        × Went (union_turn 128 f32) union_ended leg.threshold from leg.turns result.taken to result.event }
{
    let mut now = union;
    let mut taken = 0usize;
    while !is_over(now) {
        if taken == leg.turns {
            return Gone::new(now, taken, Event::Paused);
        }
        let step = turn(file, leg, now, lists, norms, order, places, blocks, floats);
        now = step.to;
        taken += 1;
        if let Some((doc, score)) = step.due {
            return Gone::new(now, taken, Event::Report(doc, score));
        }
    }
    Gone::new(now, taken, Event::Over)
}
