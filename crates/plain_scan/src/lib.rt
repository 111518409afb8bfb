// The plain scan: every document that some list has, upward, with the scores of all lists that have it.
#![tactic(auto)]

ghost use Rattle.std.specs.Prelude.{◌≡◌, ◌≤◌, ◌<◌};
ghost use Rattle.notefile.specs.Header.{norm_reader};
ghost use Rattle.term_scorer.specs.Inner.Slots.{held};
ghost use Rattle.plain_scan.specs.Inner.Heads.{AllWeighed, Standing, Taken};
ghost use Rattle.plain_scan.specs.Inner.Turns.{gone_to, GoneOn, PlainStands};

use notefile::block::TERMINATED;
use reports::{Event, Gone};
use scan_heads::{Found, heads_of, least};
use slot_rows::place::{Blocks, Places};
use slot_scores::score;
use term_scorer::score::Leg;
use term_scorer::slot;

// A plain scan on its way: over the lists of the first slots, from document doc on; whether a document must be in every list.
#[derive(Clone, Copy)]
pub struct Plain {
    pub len: usize,
    pub all: bool,
    pub doc: u32,
}

// What the lists have of document doc, in slot order. Each scorer that stands on it goes on.
fn take_document(
    file: &[u8],
    leg: Leg,
    lists: &[[usize; 8]; 16],
    norms: &[[f32; 256]; 16],
    n: usize,
    doc: u32,
    heads: &mut [u32; 16],
    places: &mut Places,
    blocks: &mut Blocks,
) -> Found
    requires { let slots = held places.old blocks.old in
        (n ≤ 16) × (leg.similarity.norms ≡ norm_reader file.now) × AllWeighed lists.now norms.now n
        × Standing leg.similarity.scoring file.now lists.now n doc slots heads.old × (doc < 2147483647) }
    ensures { let new = held places.new blocks.new in
        Taken leg.similarity.scoring file.now lists.now n doc result new heads.new }
{
    let similarity = leg.similarity;
    let mut found = Found {
        matched: 0,
        total: 0.0,
    };
    for q in 0..n {
        if heads[q] == doc {
            let value = score(file, similarity, lists, norms, q, doc, places, blocks);
            found = found.with(value);
            heads[q] = slot::advance(file, lists, q, places, blocks);
        }
    }
    found
}

// The scan as it stands still, for the four exits of `go`.
fn stand(len: usize, all: bool, doc: u32, taken: usize, event: Event) -> Gone<Plain>
    ensures { result ≡ gone_to len all doc taken event }
{
    Gone::new(Plain { len, all, doc }, taken, event)
}

// Documents upward to the next that is due, to the lists' end, or through so many turns.
// A turn looks at one document; those before the least on which a scorer stands are in no list.
pub fn go(
    file: &[u8],
    leg: Leg,
    plain: Plain,
    lists: &[[usize; 8]; 16],
    norms: &[[f32; 256]; 16],
    places: &mut Places,
    blocks: &mut Blocks,
) -> Gone<Plain>
    requires { let slots = held places.old blocks.old in
        (leg.similarity.norms ≡ norm_reader file.now)
        × PlainStands leg.similarity.scoring file.now lists.now norms.now slots plain }
    ensures { let new = held places.new blocks.new in
        GoneOn leg.similarity.scoring file.now lists.now norms.now leg.threshold leg.turns plain new result }
{
    let turns = leg.turns;
    let n = plain.len;
    let all = plain.all;
    let mut heads = heads_of(n, places, blocks);
    let mut at = plain.doc;
    let mut taken = 0usize;
    loop {
        let doc = least(&heads, n);
        let gap = (doc - at) as usize;
        if turns - taken < gap {
            let far = at + ((turns - taken) as u32);
            return stand(n, all, far, turns, Event::Paused);
        }
        taken += gap;
        at = doc;
        if doc == TERMINATED {
            return stand(n, all, doc, taken, Event::Over);
        }
        if taken == turns {
            return stand(n, all, doc, taken, Event::Paused);
        }
        let found = take_document(file, leg, lists, norms, n, doc, &mut heads, places, blocks);
        taken += 1;
        at = doc + 1;
        if found.due(all, n, leg.threshold) {
            return stand(n, all, at, taken, Event::Report(doc, found.total));
        }
    }
}
