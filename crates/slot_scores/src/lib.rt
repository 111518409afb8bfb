// Scores by slot: of the posting that a scorer stands on, and of the block that it decoded last.
#![tactic(auto)]

ghost use Rattle.std.specs.Prelude.{◌≡◌, [], ◌+◌, ◌<◌, get_or};
ghost use Rattle.std.specs.Float.{nan};
ghost use Rattle.notefile.specs.Header.{norm_reader};
ghost use Rattle.notefile.specs.Inner.Reads.{freqs_of};
ghost use Rattle.skip_reader.specs.Inner.Decoded.{doc_in, ListIn};
ghost use Rattle.slot_rows.specs.Inner.Rows.{part_in, PartRow};
ghost use Rattle.term_scorer.specs.Inner.Slots.{cursor_at, held, list_at, part_at, SlotIn};
ghost use Rattle.term_scorer.specs.Inner.Weights.{BlockScores, FloatRow, FloatRows, ScoresKept, Weighed};
ghost use Rattle.slot_scores.specs.Inner.Made.{narrow_in, ScoresMade};

use notefile::block::{DOCS, FREQS};
use notefile::skip::read_skip_entry;
use slot_rows::place::{Blocks, COUNT, CUR, DECODED, MADE, Places, SCORED, part_of};
use term_scorer::score::{Similarity, weight_in};
use term_scorer::{Floats, SCORES};

// The frequency of the posting on which slot q's scorer stands.
pub fn term_freq(q: usize, places: &Places, blocks: &Blocks) -> u32
    requires { (q < 16) × (get_or (get_or places.now q []) 6 0 < 128) }
    ensures { result ≡ get_or (freqs_of (get_or blocks.now q [])) (get_or (get_or places.now q []) 6 0) 0 }
{
    let cur = places[q][CUR];
    blocks[q][FREQS][cur]
}

// The score of the posting on which slot q's scorer stands, which is document doc.
pub fn score(
    file: &[u8],
    similarity: Similarity,
    lists: &[[usize; 8]; 16],
    norms: &[[f32; 256]; 16],
    q: usize,
    doc: u32,
    places: &Places,
    blocks: &Blocks,
) -> f32
    requires { let slots = held places.now blocks.now in
        (q < 16) × (similarity.norms ≡ norm_reader file.now) × SlotIn file.now lists.now slots q
        × Weighed lists.now norms.now q
        × (doc ≡ doc_in file.now (part_at lists.now q) (cursor_at places.now q).at) × (doc < 2147483647) }
    ensures { result ≡ (list_at similarity.scoring file.now lists.now q).score (cursor_at places.now q).at }
{
    let reader = similarity.norms;
    let scoring = similarity.scoring;
    let id = reader.fieldnorm_id(file, doc);
    let freq = term_freq(q, places, blocks);
    let w = weight_in(lists, norms, q);
    w.score(scoring, id, freq)
}

// Whether block b is full and its frequencies have at most 24 bits: f32 holds them all, with the 1 of a strict block.
fn narrow(file: &[u8], list: &[usize; 8], b: usize) -> bool
    requires { PartRow list.now × ListIn file.now (part_in list.now) }
    ensures { result ≡ narrow_in file.now (part_in list.now) b }
{
    if b < list[COUNT] / 128 {
        let x = part_of(list);
        let e = read_skip_entry(file, x, b);
        return e.freq_bits <= 24;
    }
    false
}

// The scores of the block that slot q decoded last, made at once. Its documents rise, so the last one limits them.
fn score_block(
    file: &[u8],
    similarity: Similarity,
    lists: &[[usize; 8]; 16],
    norms: &[[f32; 256]; 16],
    q: usize,
    places: &Places,
    blocks: &Blocks,
    scores: &mut [f32; 128],
)
    requires { let slots = held places.now blocks.now in
        (q < 16) × (similarity.norms ≡ norm_reader file.now) × SlotIn file.now lists.now slots q
        × Weighed lists.now norms.now q }
    ensures { let list = list_at similarity.scoring file.now lists.now q in
        BlockScores list (cursor_at places.now q).dec scores.new × FloatRow scores.new }
{
    let reader = similarity.norms;
    let scoring = similarity.scoring;
    let w = weight_in(lists, norms, q);
    let limit = blocks[q][DOCS][127] + 1;
    let small = narrow(file, &lists[q], places[q][DECODED]);
    let block = &blocks[q];
    bm25_block::score_block(
        file,
        reader,
        w,
        scoring,
        limit,
        small,
        &block[DOCS],
        &block[FREQS],
        scores,
    );
}

// The scores of the block that slot q decoded last, made and kept.
fn make_scores(
    file: &[u8],
    similarity: Similarity,
    lists: &[[usize; 8]; 16],
    norms: &[[f32; 256]; 16],
    q: usize,
    places: &mut Places,
    blocks: &Blocks,
    floats: &mut Floats,
)
    requires { let slots = held places.old blocks.now in
        (q < 16) × (similarity.norms ≡ norm_reader file.now) × SlotIn file.now lists.now slots q
        × Weighed lists.now norms.now q × FloatRows floats.old }
    ensures { ScoresMade similarity.scoring file.now lists.now q places.old floats.old places.new floats.new }
{
    score_block(
        file,
        similarity,
        lists,
        norms,
        q,
        places,
        blocks,
        &mut floats[SCORES + q],
    );
    places[q][SCORED] = MADE;
}

// The scores of the block that slot q decoded last, made if they are not.
pub fn keep_scores(
    file: &[u8],
    similarity: Similarity,
    lists: &[[usize; 8]; 16],
    norms: &[[f32; 256]; 16],
    q: usize,
    places: &mut Places,
    blocks: &Blocks,
    floats: &mut Floats,
)
    requires { let slots = held places.old blocks.now in
        (q < 16) × (similarity.norms ≡ norm_reader file.now) × SlotIn file.now lists.now slots q
        × Weighed lists.now norms.now q × FloatRows floats.old
        × ScoresKept similarity.scoring file.now lists.now places.old floats.old q }
    ensures { ScoresMade similarity.scoring file.now lists.now q places.old floats.old places.new floats.new }
{
    if places[q][SCORED] != MADE {
        make_scores(file, similarity, lists, norms, q, places, blocks, floats);
    }
}

// What slot q's scores have of the posting on which its scorer stands.
fn score_in(q: usize, places: &Places, floats: &Floats) -> f32
    requires { (q < 16) × (get_or (get_or places.now q []) 6 0 < 128) }
    ensures { result ≡ get_or (get_or floats.now (2 + q) []) (get_or (get_or places.now q []) 6 0) nan }
{
    let cur = places[q][CUR];
    floats[SCORES + q][cur]
}

// The score of the posting on which slot q's scorer stands. Its block is scored whole at the first need of one score,
// with one copy of the struct, and the scores are kept until another block is decoded.
pub fn kept_score(
    file: &[u8],
    similarity: Similarity,
    lists: &[[usize; 8]; 16],
    norms: &[[f32; 256]; 16],
    q: usize,
    places: &mut Places,
    blocks: &Blocks,
    floats: &mut Floats,
) -> f32
    requires { let slots = held places.old blocks.now in
        (q < 16) × (similarity.norms ≡ norm_reader file.now) × SlotIn file.now lists.now slots q
        × Weighed lists.now norms.now q × FloatRows floats.old
        × ScoresKept similarity.scoring file.now lists.now places.old floats.old q
        × (doc_in file.now (part_at lists.now q) (cursor_at places.old q).at < 2147483647) }
    ensures { (result ≡ (list_at similarity.scoring file.now lists.now q).score (cursor_at places.old q).at)
        × ScoresMade similarity.scoring file.now lists.now q places.old floats.old places.new floats.new }
{
    if places[q][SCORED] == MADE {
        return score_in(q, places, floats);
    }
    make_scores(file, similarity, lists, norms, q, places, blocks, floats);
    score_in(q, places, floats)
}
