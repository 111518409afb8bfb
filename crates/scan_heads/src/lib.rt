// What a plain scan looks at: the documents on which its scorers stand, the least of them, and what the lists have of a document.
#![tactic(auto)]

ghost use Rattle.std.specs.Prelude.{◌≡◌, ◌≤◌, ◌<◌};
ghost use Rattle.scan_heads.specs.Inner.Found.{due_in, with_score};
ghost use Rattle.scan_heads.specs.Inner.Heads.{least_in, HeadsOf, PlaceRead};

use notefile::block::TERMINATED;
use slot_rows::place::{Blocks, Places};
use term_scorer::slot;

// What the lists have of a document: how many have it, and the sum of its scores there.
#[derive(Clone, Copy)]
pub struct Found {
    pub matched: usize,
    pub total: f32,
}

impl Found {
    // One more list has the document. The first score is the sum; each later one is added to it.
    pub fn with(self, score: f32) -> Self
        requires { self.matched < 18446744073709551615 }
        ensures { result ≡ with_score self score }
    {
        let matched = self.matched + 1;
        if self.matched == 0 {
            return Found {
                matched,
                total: score,
            };
        }
        Found {
            matched,
            total: self.total + score,
        }
    }

    // Whether the document is to be reported: it matches, and its sum is above the threshold.
    pub fn due(self, all: bool, n: usize, threshold: f32) -> bool
        ensures { result ≡ due_in all n self threshold }
    {
        if self.matched == 0 || (all && self.matched != n) {
            return false;
        }
        self.total > threshold
    }
}

// The documents on which the first n scorers stand.
pub fn heads_of(n: usize, places: &Places, blocks: &Blocks) -> [u32; 16]
    requires { (n ≤ 16) × PlaceRead places.now n }
    ensures { HeadsOf places.now blocks.now n result }
{
    let mut heads = [TERMINATED; 16];
    for q in 0..n {
        heads[q] = slot::doc(q, places, blocks);
    }
    heads
}

// The least document on which one of the first n scorers stands.
pub fn least(heads: &[u32; 16], n: usize) -> u32
    requires { n ≤ 16 }
    ensures { result ≡ least_in heads.now n }
{
    let mut doc = TERMINATED;
    for q in 0..n {
        doc = doc.min(heads[q]);
    }
    doc
}
