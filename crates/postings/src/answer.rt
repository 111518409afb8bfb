// What a seek answers of the place to which it came.
ghost use Rattle.std.specs.Prelude.{◌≡◌};
ghost use Rattle.block_search.specs.Search.{answer_if};
ghost use Rattle.postings.specs.Seek.{seek_answer, stands_on};
ghost use Rattle.postings.specs.Inner.Places.{live_answer};

use notefile::block::TERMINATED;

// Whether a scorer's document is its target. TERMINATED is no document.
fn stands_on(doc: u32, target: u32) -> bool
    ensures { result ≡ stands_on target doc }
{
    doc == target && target < TERMINATED
}

// By a look at the document, where a scorer need not search.
pub fn answer_at(doc: u32, target: u32, cur: usize) -> Result<usize, usize>
    ensures { result ≡ seek_answer target doc cur }
{
    if stands_on(doc, target) {
        Ok(cur)
    } else {
        Err(cur)
    }
}

// By whether a search has found it: no document is compared again.
pub fn answer_by(hit: bool, target: u32, cur: usize) -> Result<usize, usize>
    ensures { result ≡ live_answer target (answer_if hit cur) }
{
    if hit && target < TERMINATED {
        Ok(cur)
    } else {
        Err(cur)
    }
}
