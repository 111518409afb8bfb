// One machine for the runs of every mode.
#![tactic(auto)]

ghost use Rattle.std.specs.Prelude.{◌≡◌};
ghost use Rattle.notefile.specs.Header.{norm_reader};
ghost use Rattle.machine.specs.Inner.Stands.{tables, StandsIn};
ghost use Rattle.machine.specs.Inner.Goes.{GoesOn};

use block_wand_intersection as intersection;
use block_wand_single::scan;
use block_wand_union::walk;
use intersection_stage::Intersection;
use plain_scan::Plain;
use reports::Gone;
use rule::Rule;
use single_hunt::Single;
use slot_rows::place::{Blocks, Places};
use term_scorer::Floats;
use term_scorer::score::{Leg, Similarity};
use union_turn::Union;

// A run of any mode on its way: what of it stands in no table.
#[derive(Clone, Copy)]
pub enum Machine {
    Union(Union),
    Single(Single),
    Intersection(Intersection),
    Plain(Plain),
}

// What is driven, and by which rule.
#[derive(Clone, Copy)]
pub struct Task {
    pub similarity: Similarity,
    pub machine: Machine,
    pub rule: Rule,
}

// The machine goes on to its next report, to its end, or through the leg's turns. These four runs are all there are, which a match says
// plainer than a trait would.
pub fn go_on(
    file: &[u8],
    leg: Leg,
    machine: Machine,
    lists: &[[usize; 8]; 16],
    norms: &[[f32; 256]; 16],
    order: &mut [usize; 16],
    places: &mut Places,
    blocks: &mut Blocks,
    floats: &mut Floats,
) -> Gone<Machine>
    requires { let old = tables order.old places.old blocks.old floats.old in
        (leg.similarity.norms ≡ norm_reader file.now) × StandsIn file.now leg.similarity lists.now norms.now old machine }
    ensures { let old = tables order.old places.old blocks.old floats.old in
        let new = tables order.new places.new blocks.new floats.new in
        GoesOn file.now leg.similarity lists.now norms.now leg.threshold leg.turns old machine new result }
{
    match machine {
        Machine::Union(v) => {
            let g = walk::go(file, leg, v, lists, norms, order, places, blocks, floats);
            g.map(Machine::Union)
        }
        Machine::Single(v) => {
            let g = scan::go(file, leg, v, lists, norms, places, blocks, floats);
            g.map(Machine::Single)
        }
        Machine::Intersection(v) => {
            let g = intersection::go(file, leg, v, lists, norms, order, places, blocks, floats);
            g.map(Machine::Intersection)
        }
        Machine::Plain(v) => {
            let g = plain_scan::go(file, leg, v, lists, norms, places, blocks);
            g.map(Machine::Plain)
        }
    }
}
