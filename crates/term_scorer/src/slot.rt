// A scorer's moves by its slot. The other slots stay as they are.
ghost use Rattle.std.specs.Prelude.{◌≡◌, [], ◌≤◌, ◌<◌, get_or, ltb};
ghost use Rattle.route.specs.Cursor.{advance_in, seek_block_in, seek_in};
ghost use Rattle.route.specs.Postings.{start};
ghost use Rattle.notefile.specs.Lists.{full_blocks};
ghost use Rattle.notefile.specs.Inner.Reads.{docs_of};
ghost use Rattle.notefile.specs.declared.part.Part.{Part};
ghost use Rattle.skip_reader.specs.Inner.Decoded.{doc_in, ListIn};
ghost use Rattle.slot_rows.specs.Inner.Rows.{first_of};
ghost use Rattle.term_scorer.specs.Inner.Slots.{cursor_at, held, last_at, list_at, part_at};
ghost use Rattle.term_scorer.specs.Inner.Slots.{MovedSlot, Opened, Shallowed, SlotIn, SoughtSlot, StandingIn, Sixteen};

use notefile::block::DOCS;
use notefile::part::Part;
use slot_rows::place::{BLOCK, Blocks, COUNT, CUR, LAST, Places, keep_part};

// A list's scorer in slot q, on the list's first posting, and beside it the bits of its list bound.
pub fn open(
    file: &[u8],
    x: Part,
    max_score: u32,
    q: usize,
    lists: &mut [[usize; 8]; 16],
    places: &mut Places,
    blocks: &mut Blocks,
) -> u32
    requires { (q < 16) × ListIn file.now x
        × Sixteen lists.old × Sixteen places.old × Sixteen blocks.old }
    ensures { let old = held places.old blocks.old in
        let new = held places.new blocks.new in
        Opened file.now x max_score q lists.old lists.new old new result }
{
    keep_part(x, max_score, &mut lists[q]);
    slot_moves::open(file, x, &mut places[q], &mut blocks[q])
}

// The document that slot q's scorer stands on.
pub fn doc(q: usize, places: &Places, blocks: &Blocks) -> u32
    requires { (q < 16) × (get_or (get_or places.now q []) 6 0 < 128) }
    ensures { result ≡ get_or (docs_of (get_or blocks.now q [])) (get_or (get_or places.now q []) 6 0) 0 }
{
    let cur = places[q][CUR];
    blocks[q][DOCS][cur]
}

// The last document of the block on which the skip reader stands.
pub fn last_doc_in_block(q: usize, places: &Places) -> u32
    requires { (q < 16) × (last_at places.now q < 4294967296) }
    ensures { result ≡ last_at places.now q }
{
    places[q][LAST] as u32
}

// Whether the block on which the skip reader stands has a document.
pub fn has_remaining_docs(file: &[u8], lists: &[[usize; 8]; 16], q: usize, places: &Places) -> bool
    requires { (q < 16) × StandingIn file.now lists.now places.now q }
    ensures { result ≡ ltb (start 128 (cursor_at places.now q).blk) (part_at lists.now q).count }
{
    places[q][BLOCK] * 128 < lists[q][COUNT]
}

// The skip reader alone goes on to the block that may hold the target.
pub fn seek_block(file: &[u8], lists: &[[usize; 8]; 16], q: usize, target: u32, places: &mut Places)
    requires { (q < 16) × StandingIn file.now lists.now places.old q }
    ensures { Shallowed file.now lists.now q
        (λ s. seek_block_in (list_at s file.now lists.now q) 128 target (cursor_at places.old q))
        places.old places.new }
{
    slot_moves::seek_block(file, &lists[q], target, &mut places[q]);
}

// `seek_block` for a loop over scorers: most stay in their block, and this much can stand in the loop.
pub fn shallow_seek(
    file: &[u8],
    lists: &[[usize; 8]; 16],
    q: usize,
    target: u32,
    places: &mut Places,
)
    requires { (q < 16) × StandingIn file.now lists.now places.old q }
    ensures { Shallowed file.now lists.now q
        (λ s. seek_block_in (list_at s file.now lists.now q) 128 target (cursor_at places.old q))
        places.old places.new }
{
    let last = places[q][LAST];
    if target as usize <= last {
        return;
    }
    seek_block(file, lists, q, target, places);
}

// On to the first posting from the target on: a hit if the target is there, else a miss.
pub fn seek(
    file: &[u8],
    lists: &[[usize; 8]; 16],
    q: usize,
    doc: u32,
    target: u32,
    places: &mut Places,
    blocks: &mut Blocks,
) -> Result<usize, usize>
    requires { let slots = held places.old blocks.old in
        (q < 16) × SlotIn file.now lists.now slots q
        × (doc ≡ doc_in file.now (part_at lists.now q) (cursor_at places.old q).at) × (target ≤ 2147483647) }
    ensures { let old = held places.old blocks.old in
        let new = held places.new blocks.new in
        SoughtSlot file.now lists.now q target
        (λ s. seek_in (list_at s file.now lists.now q) 128 target (cursor_at places.old q))
        old new result }
{
    slot_moves::seek(file, &lists[q], doc, target, &mut places[q], &mut blocks[q])
}

// On to the next posting.
pub fn advance(
    file: &[u8],
    lists: &[[usize; 8]; 16],
    q: usize,
    places: &mut Places,
    blocks: &mut Blocks,
) -> u32
    requires { let slots = held places.old blocks.old in
        (q < 16) × SlotIn file.now lists.now slots q × ((cursor_at places.old q).blk ≤ full_blocks (part_at lists.now q)) }
    ensures { let old = held places.old blocks.old in
        let new = held places.new blocks.new in
        MovedSlot file.now lists.now q
        (λ s. advance_in (list_at s file.now lists.now q) 128 (cursor_at places.old q))
        old new result }
{
    slot_moves::advance(file, &lists[q], &mut places[q], &mut blocks[q])
}

// `advance` for a loop over scorers: most stay in their block, and this much can stand in the loop.
pub fn step(
    file: &[u8],
    lists: &[[usize; 8]; 16],
    q: usize,
    places: &mut Places,
    blocks: &mut Blocks,
) -> u32
    requires { let slots = held places.old blocks.old in
        (q < 16) × SlotIn file.now lists.now slots q × ((cursor_at places.old q).blk ≤ full_blocks (part_at lists.now q)) }
    ensures { let old = held places.old blocks.old in
        let new = held places.new blocks.new in
        MovedSlot file.now lists.now q
        (λ s. advance_in (list_at s file.now lists.now q) 128 (cursor_at places.old q))
        old new result }
{
    let cur = places[q][CUR];
    if cur != 127 {
        places[q][CUR] = cur + 1;
        return blocks[q][DOCS][cur + 1];
    }
    advance(file, lists, q, places, blocks)
}

// To the first posting of the skip reader's block, which is loaded if it is not.
pub fn load(
    file: &[u8],
    lists: &[[usize; 8]; 16],
    q: usize,
    places: &mut Places,
    blocks: &mut Blocks,
) -> u32
    requires { (q < 16) × SlotIn file.now lists.now (held places.old blocks.old) q }
    ensures { let old = held places.old blocks.old in
        let new = held places.new blocks.new in
        MovedSlot file.now lists.now q (λ _. first_of (cursor_at places.old q)) old new result }
{
    slot_moves::load(file, &lists[q], &mut places[q], &mut blocks[q])
}
