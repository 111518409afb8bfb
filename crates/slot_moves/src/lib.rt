// A scorer's moves over its slot's rows and arrays. Within a block they change one number or none.
#![tactic(auto)]

ghost use Rattle.std.specs.Prelude.{◌≡◌, ◌≤◌, ◌<◌, get_or};
ghost use Rattle.block_search.specs.Search.{answer_if};
ghost use Rattle.route.specs.Cursor.{Cursor, advance_in, fresh, seek_block_in, seek_in};
ghost use Rattle.bm25.specs.declared.Scoring.{Scoring};
ghost use Rattle.notefile.specs.Lists.{full_blocks};
ghost use Rattle.decoded.specs.Lists.{list_of};
ghost use Rattle.skip_reader.specs.Inner.Decoded.{doc_in, ListIn};
ghost use Rattle.postings.specs.Inner.Places.{Behind, live_answer};
ghost use Rattle.slot_rows.specs.Inner.Rows.{cursor_in, first_of, part_in, postings_in, PartRow, PlaceIn, Standing, Unkept};
ghost use Rattle.slot_rows.specs.Inner.Rows.{MovedRow, Reached, ShallowRow, SoughtRow};

use block_search::{index_of, search_block};
use notefile::block::{Block, DOCS};
use notefile::part::Part;
use postings::answer::{answer_at, answer_by};
use postings::cursor::SegmentPostings;
use skip_reader::block::load_block;
use slot_rows::place::{AHEAD, CUR, LAST, LOADED, NOWHERE, Place, keep, part_of, postings_of};

// On the list's first posting. Nothing is kept of the list that had the row before.
pub fn open(file: &[u8], x: Part, place: &mut Place, block: &mut Block) -> u32
    requires { ListIn file.now x }
    ensures { MovedRow file.now x (λ _. fresh) place.old place.new block.new result
        × Unkept place.new }
{
    let p = SegmentPostings::open(file, x, block);
    keep(p, place);
    place[AHEAD] = NOWHERE;
    p.doc(block)
}

// The skip reader alone goes on; within its block nothing moves.
pub fn seek_block(file: &[u8], list: &[usize; 8], target: u32, place: &mut Place)
    requires { let x = part_in list.now in
        PartRow list.now × ListIn file.now x × Standing file.now x place.old }
    ensures { let x = part_in list.now in
        let to : Scoring → Cursor = λ scoring. seek_block_in (list_of scoring file.now x) 128 target (cursor_in place.old) in
        ShallowRow file.now x to place.old place.new }
{
    if target as usize <= place[LAST] {
        return;
    }
    let x = part_of(list);
    let p = postings_of(file, x, place);
    let r = p.seek_block(file, x, target);
    keep(r, place);
}

// The skip reader to the block that may hold the target, and the block loaded. Mostly it stands there, and nothing is to be done.
fn reach(file: &[u8], list: &[usize; 8], target: u32, place: &mut Place, block: &mut Block)
    requires { let x = part_in list.now in
        PartRow list.now × ListIn file.now x × PlaceIn file.now x place.old block.old }
    ensures { Reached file.now (part_in list.now) target place.old place.new block.new }
{
    if place[LAST] < target as usize {
        seek_block(file, list, target, place);
        load(file, list, place, block);
        return;
    }
    if place[LOADED] != 1 {
        load(file, list, place, block);
    }
}

// From behind the next posting to the first from the target on, by a search in the first block that ends at the target or after it:
// whether it is a hit. Its place is in the row.
fn seek_on(
    file: &[u8],
    list: &[usize; 8],
    target: u32,
    place: &mut Place,
    block: &mut Block,
) -> bool
    requires { let x = part_in list.now in
        PartRow list.now × ListIn file.now x × PlaceIn file.now x place.old block.old
        × Behind (postings_in file.now x place.old) block.old target × (target ≤ 2147483647) }
    ensures { let x = part_in list.now in
        let to : Scoring → Cursor = λ scoring. seek_in (list_of scoring file.now x) 128 target (cursor_in place.old) in
        let found = answer_if result (get_or place.new 6 0) in
        SoughtRow file.now x target to place.old place.new block.new (live_answer target found) }
{
    reach(file, list, target, place, block);
    let found = search_block(&block[DOCS], target);
    place[CUR] = index_of(found);
    found.is_ok()
}

// On to the first posting from the target on: where the scorer stands, the next one, or in the first block that ends at the target
// or after it. A hit if the target is there, with its place in the block, else a miss with the place to which the scorer came.
pub fn seek(
    file: &[u8],
    list: &[usize; 8],
    doc: u32,
    target: u32,
    place: &mut Place,
    block: &mut Block,
) -> Result<usize, usize>
    requires { let x = part_in list.now in
        PartRow list.now × ListIn file.now x × PlaceIn file.now x place.old block.old
        × (doc ≡ doc_in file.now x (cursor_in place.old).at) × (target ≤ 2147483647) }
    ensures { let x = part_in list.now in
        let to : Scoring → Cursor = λ scoring. seek_in (list_of scoring file.now x) 128 target (cursor_in place.old) in
        SoughtRow file.now x target to place.old place.new block.new result }
{
    let cur = place[CUR];
    if target <= doc {
        return answer_at(doc, target, cur);
    }
    if cur == 127 {
        let hit = seek_on(file, list, target, place, block);
        return answer_by(hit, target, place[CUR]);
    }
    let next_doc = block[DOCS][cur + 1];
    if target <= next_doc {
        place[CUR] = cur + 1;
        return answer_at(next_doc, target, cur + 1);
    }
    let hit = seek_on(file, list, target, place, block);
    answer_by(hit, target, place[CUR])
}

// To the first posting of the next block.
fn advance_far(file: &[u8], list: &[usize; 8], place: &mut Place, block: &mut Block) -> u32
    requires { let x = part_in list.now in
        PartRow list.now × ListIn file.now x × PlaceIn file.now x place.old block.old
        × (get_or place.old 0 0 ≤ full_blocks x) }
    ensures { let x = part_in list.now in
        let to : Scoring → Cursor = λ scoring. advance_in (list_of scoring file.now x) 128 (cursor_in place.old) in
        MovedRow file.now x to place.old place.new block.new result }
{
    let x = part_of(list);
    let p = postings_of(file, x, place);
    let r = p.advance(file, x, block);
    keep(r, place);
    r.doc(block)
}

// On to the next posting.
pub fn advance(file: &[u8], list: &[usize; 8], place: &mut Place, block: &mut Block) -> u32
    requires { let x = part_in list.now in
        PartRow list.now × ListIn file.now x × PlaceIn file.now x place.old block.old
        × (get_or place.old 0 0 ≤ full_blocks x) }
    ensures { let x = part_in list.now in
        let to : Scoring → Cursor = λ scoring. advance_in (list_of scoring file.now x) 128 (cursor_in place.old) in
        MovedRow file.now x to place.old place.new block.new result }
{
    let cur = place[CUR];
    if cur != 127 {
        place[CUR] = cur + 1;
        return block[DOCS][cur + 1];
    }
    advance_far(file, list, place, block)
}

// To the first posting of the skip reader's block, which is loaded if it is not.
pub fn load(file: &[u8], list: &[usize; 8], place: &mut Place, block: &mut Block) -> u32
    requires { let x = part_in list.now in
        PartRow list.now × ListIn file.now x × PlaceIn file.now x place.old block.old }
    ensures { let x = part_in list.now in
        MovedRow file.now x (λ _. first_of (cursor_in place.old)) place.old place.new block.new result }
{
    if place[LOADED] == 1 {
        place[CUR] = 0;
        return block[DOCS][0];
    }
    let x = part_of(list);
    let p = postings_of(file, x, place);
    let skip_reader = p.skip_reader;
    load_block(file, x, skip_reader, block);
    let loaded = SegmentPostings {
        skip_reader,
        block_loaded: true,
        decoded: skip_reader.block,
        cur: 0,
    };
    keep(loaded, place);
    block[DOCS][0]
}
