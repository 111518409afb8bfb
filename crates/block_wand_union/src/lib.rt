// The union's skipping run: `block_wand` over two or more scorers. Their slots stand in a lent row, in their order.
#![tactic(auto)]

pub mod walk;

ghost use Rattle.std.specs.Prelude.{◌≤◌};
ghost use Rattle.union_moves.specs.Inner.Seats.{alive};
ghost use Rattle.block_wand_union.specs.Inner.Runs.{Begins};

use ordering::{Scorers, sort_by_doc};
use slot_pivot::structs::keep_order;
use union_turn::{Stage, Union};

// Scorers that were just opened, in the order of their documents: where a run begins.
pub fn begin(scorers: Scorers, order: &mut [usize; 16]) -> Union
    requires { scorers.len ≤ 16 }
    ensures { Begins (alive scorers) scorers.len result order.new }
{
    let in_order = Scorers {
        scorers: sort_by_doc(scorers.scorers, scorers.len),
        ..scorers
    };
    keep_order(in_order, order);
    Union {
        len: scorers.len,
        stage: Stage::Looking,
    }
}
