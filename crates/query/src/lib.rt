// The lists that a query names, each opened in a slot of its own: slot q is the query's number q.
#![tactic(auto)]

ghost use Rattle.std.specs.Prelude.{◌≡◌, ◌≤◌, ◌<◌, length};
ghost use Rattle.notefile.specs.Header.{list_count};
ghost use Rattle.notefile.specs.Refusal.{file_refusal};
ghost use Rattle.notefile.specs.Inner.Structs.{header_of};
ghost use Rattle.query.specs.Inner.Openings.{tables, Named, OneOpened, QueryOpened, Room, Untouched};

use bm25::{Bm25Weight, Scoring};
use notefile::header::Header;
use notefile::part::read_part;
use slot_rows::place::{Blocks, Places};
use term_scorer::{TermScorer, slot};

// A list's scorer in slot q, on its first posting, with its norms.
fn open_list(
    file: &[u8],
    h: Header,
    scoring: Scoring,
    l: usize,
    q: usize,
    lists: &mut [[usize; 8]; 16],
    norms: &mut [[f32; 256]; 16],
    places: &mut Places,
    blocks: &mut Blocks,
) -> TermScorer
    requires { let slots = tables lists.old norms.old places.old blocks.old in
        (file_refusal file.now ≡ 0) × (h ≡ header_of file.now) × (l < list_count file.now) × (q < 16) × Room slots }
    ensures { let old = tables lists.old norms.old places.old blocks.old in
        let new = tables lists.new norms.new places.new blocks.new in
        OneOpened scoring file.now l q old new result }
{
    let x = read_part(file, h, l);
    let w = Bm25Weight::new(f32::from_bits(x.weight), f32::from_bits(x.average));
    let max_score = w.max_score(scoring);
    let cache = w.cache;
    norms[q] = cache;
    let top = f32::to_bits(max_score);
    let doc = slot::open(file, x, top, q, lists, places, blocks);
    TermScorer {
        doc,
        max_score,
        slot: q,
    }
}

// The query's lists in slots of their own, in its order. A list that is named twice has two slots.
pub fn open_lists(
    file: &[u8],
    h: Header,
    scoring: Scoring,
    query: &[u32],
    lists: &mut [[usize; 8]; 16],
    norms: &mut [[f32; 256]; 16],
    places: &mut Places,
    blocks: &mut Blocks,
) -> [TermScorer; 16]
    requires { let slots = tables lists.old norms.old places.old blocks.old in
        (file_refusal file.now ≡ 0) × (h ≡ header_of file.now) × (length query.now ≤ 16) × Named file.now query.now
        × Room slots }
    ensures { let old = tables lists.old norms.old places.old blocks.old in
        let new = tables lists.new norms.new places.new blocks.new in
        QueryOpened scoring file.now query.now (length query.now) new result
        × Untouched (length query.now) old new }
{
    let none = TermScorer {
        doc: 0,
        max_score: 0.0,
        slot: 0,
    };
    let mut scorers = [none; 16];
    for (q, number) in query.iter().enumerate() {
        let l = *number as usize;
        let scorer = open_list(file, h, scoring, l, q, lists, norms, places, blocks);
        scorers[q] = scorer;
    }
    scorers
}
