// The walk over a decoded block: up to a posting whose score is above the threshold, or out of the block.
#![tactic(auto)]

ghost use Rattle.std.specs.Prelude.{◌≡◌, min, ◌+◌, ◌*◌, ◌-◌, ◌≤◌, ◌<◌};
ghost use Rattle.term_scorer.specs.Inner.Slots.{held, SlotIn};
ghost use Rattle.single_hunt.specs.Inner.Places.{start_of, ToPlace};
ghost use Rattle.single_walk.specs.Inner.Walks.{FirstAbove, Walkable, Walks};

use notefile::block::{DOCS, TERMINATED};
use reports::{Event, Gone};
use single_hunt::{Phase, Single, skip};
use slot_rows::place::{BLOCK, Blocks, COUNT, CUR, Places};

// The first place whose score is above the threshold, or n where there is none.
fn first_above(values: &[f32; 128], from: usize, n: usize, threshold: f32) -> usize
    requires { (from ≤ n) × (n ≤ 128) }
    ensures { FirstAbove values.now from n threshold result }
{
    for i in from..n {
        if values[i] > threshold {
            return i;
        }
    }
    n
}

// How many postings a block has.
fn block_len(count: usize, block: usize) -> usize
    requires { block * 128 ≤ count }
    ensures { result ≡ min (count - block * 128) 128 }
{
    (count - block * 128).min(128)
}

// How far the turns lead from a place: a turn for each posting, and no further than n.
fn reach(cur: usize, n: usize, turns: usize) -> usize
    requires { cur ≤ n }
    ensures { result ≡ min n (cur + turns) }
{
    cur + turns.min(n - cur)
}

// The first posting that is asked: behind a report the next one.
fn first_asked(phase: Phase, cur: usize) -> usize
    requires { cur < 128 }
    ensures { result ≡ start_of phase cur }
{
    match phase {
        Phase::Called => cur + 1,
        Phase::Hunt | Phase::Walk | Phase::Over => cur,
    }
}

// Where the scorer stands behind n postings: on the last of a full block, behind those of a tail.
fn last_place(n: usize) -> usize
    ensures { result ≡ min n 127 }
{
    n.min(127)
}

// To place i of a block of n postings, or out of it behind the last.
fn to_place(
    file: &[u8],
    lists: &[[usize; 8]; 16],
    q: usize,
    i: usize,
    n: usize,
    places: &mut Places,
    blocks: &Blocks,
) -> Single
    requires { (q < 16) × (n ≤ 128) × SlotIn file.now lists.now (held places.old blocks.now) q }
    ensures { ToPlace file.now lists.now q blocks.now n i places.old places.new result }
{
    if i < n {
        places[q][CUR] = i;
        return Single {
            slot: q,
            doc: blocks[q][DOCS][i],
            phase: Phase::Walk,
        };
    }
    places[q][CUR] = last_place(n);
    skip(file, lists, q, TERMINATED, places)
}

// Over the block's postings, a turn for each: to the first that is due, out of the block, or as far as the turns lead.
pub fn walk(
    file: &[u8],
    single: Single,
    lists: &[[usize; 8]; 16],
    threshold: f32,
    turns: usize,
    places: &mut Places,
    blocks: &Blocks,
    values: &[f32; 128],
) -> Gone<Single>
    requires { Walkable file.now lists.now single places.old blocks.now values.now × (0 < turns) }
    ensures { Walks file.now lists.now single places.old blocks.now values.now threshold turns result places.new }
{
    let q = single.slot;
    let cur = places[q][CUR];
    let n = block_len(lists[q][COUNT], places[q][BLOCK]);
    let end = reach(cur, n, turns);
    let phase = single.phase;
    let from = first_asked(phase, cur);
    let place = first_above(values, from, end, threshold);
    let taken = place - cur;
    if place == end {
        let single = to_place(file, lists, q, place, n, places, blocks);
        return Gone::new(single, taken, Event::Paused);
    }
    places[q][CUR] = place;
    let doc = blocks[q][DOCS][place];
    let score = values[place];
    let single = Single {
        slot: q,
        doc,
        phase: Phase::Called,
    };
    Gone::new(single, taken + 1, Event::Report(doc, score))
}
