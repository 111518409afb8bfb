// One list: its rows 7 to 9, the bytes of its postings, and where the scores of its full blocks are highest.
ghost use Rattle.std.specs.Prelude.{◌≡◌, cond, ◌+◌, ◌*◌, ◌/◌, ◌%◌, ◌≤◌, ◌<◌, eqb, length};
ghost use Rattle.std.specs.Float.Ieee.{lt};
ghost use Rattle.bm25.specs.Inner.Weight.{WeightOf};
ghost use Rattle.outcome.specs.Refusals.{refusal_number};
ghost use Rattle.house.specs.Inner.Listed.{listed, Fits};
ghost use Rattle.list_price.specs.Inner.Loads.{Standing, Loaded, Right, tail_length};
ghost use Rattle.list_price.specs.Inner.Prices.{CodeFits, BlocksPriced, TailPriced, Priced};

use block_cover::covered;
use block_look::look;
use bm25::{Bm25Weight, Scoring};
use bm25_block::score_block;
use contents::{Tops, doc_before};
use encode::values::{differences, lowered};
use encode::vint::vints_len;
use fieldnorm::FieldNormReader;
use outcome::refusal::{Refusal, lower_of};
use posting_tests::tests::{copy, docs_right, freqs_right, places};
use posting_tests::top::top_of;

// What n postings from a place on are refused for, of 7 and 8; right ones are copied into the block.
fn load_block(
    docs: &[u32],
    freqs: &[u32],
    at: usize,
    n: usize,
    first: bool,
    limit: u32,
    block_docs: &mut [u32; 128],
    block_freqs: &mut [u32; 128],
) -> Result<(), Refusal>
    requires { Standing docs.now freqs.now at n first }
    ensures { Loaded docs.now freqs.now at n first limit (refusal_number result) block_docs.new block_freqs.new }
{
    let previous = doc_before(docs, at, first);
    if !docs_right(docs, at, n, first, previous, limit) {
        return Err(Refusal::Documents);
    }
    if !freqs_right(freqs, at, n) {
        return Err(Refusal::Frequencies);
    }
    places(block_docs);
    copy(docs, at, n, block_docs);
    places(block_freqs);
    copy(freqs, at, n, block_freqs);
    Ok(())
}

// The bytes of the tail's VInts.
fn tail_length(
    docs: &[u32],
    freqs: &[u32],
    at: usize,
    n: usize,
    first: bool,
    block_docs: &mut [u32; 128],
    block_freqs: &mut [u32; 128],
) -> usize
    requires { Right docs.now freqs.now at n first }
    ensures { (result ≡ tail_length docs.now freqs.now at n first) × (result ≤ 1280) }
{
    let previous = doc_before(docs, at, first);
    places(block_docs);
    differences(docs, at, n, false, first, previous, block_docs);
    places(block_freqs);
    lowered(freqs, at, n, false, block_freqs);
    vints_len(block_docs, n) + vints_len(block_freqs, n)
}

// A refusal after one more score: 9 where the bound is below it, unless there is one already.
fn with_score(found: Result<(), Refusal>, bound: f32, score: f32) -> Result<(), Refusal>
    ensures { let number = refusal_number found in
        refusal_number result ≡ cond (eqb number 0) (cond (lt bound score) 9 0) number }
{
    found?;
    if bound < score {
        return Err(Refusal::Bound);
    }
    Ok(())
}

// The table has its 131,072 places.
fn table(tops: &Tops) -> usize
    ensures { length tops.now ≡ 131072 }
{
    (&tops[..]).len()
}

// A norm code that all documents share is a byte.
fn code_byte(reader: FieldNormReader) -> u8
    ensures { CodeFits reader }
{
    match reader {
        FieldNormReader::FromData(_) => 0,
        FieldNormReader::Const(code) => code,
    }
}

// The bytes of the full blocks, or what they are refused for. After a 7 nothing lower can come; an 8 stays.
fn price_blocks(
    norms: &[u8],
    reader: FieldNormReader,
    limit: u32,
    w: Bm25Weight,
    docs: &[u32],
    freqs: &[u32],
    from: usize,
    n: usize,
    start: usize,
    tops: &mut Tops,
) -> Result<usize, Refusal>
    requires { let y = listed reader norms.now w.weight w.average docs.now freqs.now from n in
        Fits y limit × WeightOf w.weight w.average w × (start + n / 128 ≤ 131072) }
    ensures { let y = listed reader norms.now w.weight w.average docs.now freqs.now from n in
        BlocksPriced y limit start tops.old result tops.new }
{
    table(tops);
    code_byte(reader);
    let bound = w.max_score(Scoring::Unstepped);
    let mut block_docs = [0u32; 128];
    let mut block_freqs = [0u32; 128];
    let mut scores = [0.0f32; 128];
    let mut refusal = Ok(());
    let mut postings: usize = 0;
    for b in 0..n / 128 {
        let at = from + 128 * b;
        match look(docs, freqs, at, b == 0, doc_before(docs, at, b == 0), limit) {
            Ok(found) => {
                copy(docs, at, 128, &mut block_docs);
                copy(freqs, at, 128, &mut block_freqs);
                score_block(
                    norms,
                    reader,
                    w,
                    Scoring::Unstepped,
                    limit,
                    found.freq_bits <= 24,
                    &block_docs,
                    &block_freqs,
                    &mut scores,
                );
                let top = top_of(&scores);
                tops[start + b] = top as u8;
                refusal = with_score(refusal, bound, scores[top]);
                postings += 16 * ((found.doc_bits + found.freq_bits) as usize);
            }
            Err(stop) if stop == Refusal::Documents => return Err(stop),
            Err(stop) => refusal = Err(stop),
        }
    }
    refusal?;
    Ok(postings)
}

// The bytes of the tail, or what it is refused for.
fn price_tail(
    norms: &[u8],
    reader: FieldNormReader,
    limit: u32,
    w: Bm25Weight,
    docs: &[u32],
    freqs: &[u32],
    from: usize,
    n: usize,
) -> Result<usize, Refusal>
    requires { let y = listed reader norms.now w.weight w.average docs.now freqs.now from n in
        Fits y limit × WeightOf w.weight w.average w }
    ensures { let y = listed reader norms.now w.weight w.average docs.now freqs.now from n in
        TailPriced y limit result }
{
    code_byte(reader);
    let bound = w.max_score(Scoring::Unstepped);
    let mut block_docs = [0u32; 128];
    let mut block_freqs = [0u32; 128];
    let blocks = n / 128;
    let rest = n % 128;
    let at = from + 128 * blocks;
    load_block(
        docs,
        freqs,
        at,
        rest,
        blocks == 0,
        limit,
        &mut block_docs,
        &mut block_freqs,
    )?;
    if !covered(norms, reader, w, &block_docs, &block_freqs, rest, bound) {
        return Err(Refusal::Bound);
    }
    Ok(tail_length(
        docs,
        freqs,
        at,
        rest,
        blocks == 0,
        &mut block_docs,
        &mut block_freqs,
    ))
}

// The bytes of a list's postings, or what it is refused for, of 7 to 9: its full blocks, then its tail.
pub fn price_list(
    norms: &[u8],
    reader: FieldNormReader,
    limit: u32,
    w: Bm25Weight,
    docs: &[u32],
    freqs: &[u32],
    from: usize,
    n: usize,
    start: usize,
    tops: &mut Tops,
) -> Result<usize, Refusal>
    requires { let y = listed reader norms.now w.weight w.average docs.now freqs.now from n in
        Fits y limit × WeightOf w.weight w.average w × (start + n / 128 ≤ 131072) }
    ensures { let y = listed reader norms.now w.weight w.average docs.now freqs.now from n in
        Priced y limit start tops.old result tops.new }
{
    let full = price_blocks(norms, reader, limit, w, docs, freqs, from, n, start, tops);
    if full == Err(Refusal::Documents) {
        return full;
    }
    let tail = price_tail(norms, reader, limit, w, docs, freqs, from, n);
    lower_of(full.and(Ok(())), tail.and(Ok(())))?;
    Ok(full? + tail?)
}
