// The scan by turns: to the next report, to its end, or as far as the turns lead.
ghost use Rattle.std.specs.Prelude.{◌≡◌, false, ◌<◌};
ghost use Rattle.term_scorer.specs.Inner.Slots.{held};
ghost use Rattle.single_hunt.specs.Inner.Places.{is_done};
ghost use Rattle.single_hunt.specs.Inner.Stands.{Stands};
ghost use Rattle.block_wand_single.specs.Inner.Runs.{Goes};
ghost use Rattle.single_walk.specs.Inner.Strides.{Steps};

use reports::{Event, Gone};
use single_hunt::{Single, hunt};
use single_walk::walk;
use slot_rows::place::{Blocks, Places};
use term_scorer::score::Leg;
use term_scorer::{Floats, SCORES};

// One turn of the hunt, or a walk over the block. Where no report is due it says Paused, also at the end.
fn stride(
    file: &[u8],
    leg: Leg,
    single: Single,
    lists: &[[usize; 8]; 16],
    norms: &[[f32; 256]; 16],
    places: &mut Places,
    blocks: &mut Blocks,
    floats: &mut Floats,
) -> Gone<Single>
    requires { let slots = held places.old blocks.old in
        Stands file.now leg.similarity lists.now norms.now single slots floats.old
        × (is_done single.phase ≡ false) × (0 < leg.turns) }
    ensures { let old = held places.old blocks.old in
        let new = held places.new blocks.new in
        Steps file.now leg.similarity lists.now norms.now leg.threshold leg.turns
        single old result new floats.new }
{
    if single.phase.walks() {
        let q = single.slot;
        return walk(
            file,
            single,
            lists,
            leg.threshold,
            leg.turns,
            places,
            blocks,
            &floats[SCORES + q],
        );
    }
    let single = hunt(file, leg, single, lists, norms, places, blocks, floats);
    Gone::new(single, 1, Event::Paused)
}

// From where the scan stands to the next report, to its end, or through the turns that are allowed.
pub fn go(
    file: &[u8],
    leg: Leg,
    single: Single,
    lists: &[[usize; 8]; 16],
    norms: &[[f32; 256]; 16],
    places: &mut Places,
    blocks: &mut Blocks,
    floats: &mut Floats,
) -> Gone<Single>
    requires { let slots = held places.old blocks.old in
        Stands file.now leg.similarity lists.now norms.now single slots floats.old }
    ensures { let old = held places.old blocks.old in
        let new = held places.new blocks.new in
        Goes file.now leg.similarity lists.now norms.now leg.threshold leg.turns
        single old result new floats.new }
{
    let mut single = single;
    let mut taken = 0usize;
    loop {
        if single.phase.is_over() {
            return Gone::new(single, taken, Event::Over);
        }
        if taken == leg.turns {
            return Gone::new(single, taken, Event::Paused);
        }
        let mut left = leg;
        left.turns = leg.turns - taken;
        let next = stride(file, left, single, lists, norms, places, blocks, floats);
        single = next.to;
        taken += next.taken;
        if let Event::Report(_, _) = next.event {
            return Gone::new(single, taken, next.event);
        }
    }
}
