// One list of contents written: its skip entries, its full blocks and its tail.
#![tactic(auto)]

ghost use Rattle.std.specs.Prelude.{◌≡◌, ◌++◌, ◌+◌, ◌*◌, ◌/◌, ◌≤◌, ◌<◌, length, get_or};
ghost use Rattle.fieldnorm.specs.Reader.{fieldnorm_id};
ghost use Rattle.pieces.specs.Inner.Written.{Put};
ghost use Rattle.pieces.specs.Inner.Two.{TwoPieces};
ghost use Rattle.encode.specs.SkipEntry.{skip_entry};
ghost use Rattle.bm25_pair.specs.Pair.{freq_code};
ghost use Rattle.house.specs.House.{doc_bits, freq_bits, block_bytes, tail_bytes, postings_bytes};
ghost use Rattle.house.specs.Inner.Sound.{Sound};
ghost use Rattle.list_writer.specs.Inner.Skips.{numbers_from, skips_by, TopsIn};
ghost use Rattle.list_writer.specs.Inner.Filled.{PostingsIn, Filled};

use contents::{Tops, doc_before};
use encode::skips::write_skip_entry;
use encode::values::{differences, lowered};
use encode::vint::write_vints;
use fieldnorm::FieldNormReader;
use notefile::block::{Block, DOCS, FREQS, sized};
use packing::{num_bits, pack};

// The codes of a block's bound.
#[derive(Clone, Copy)]
struct Pair {
    norm: u8,
    freq: u8,
}

// The code of every frequency above 254.
const HIGH_FREQ_CODE: u8 = 255;

// A frequency's code: itself up to 254, and 255 above.
fn freq_code(f: u32) -> u8
    ensures { result ≡ freq_code f }
{
    if f < 255 {
        return f as u8;
    }
    HIGH_FREQ_CODE
}

// The pair of the posting at a place.
fn pair_at(norms: &[u8], reader: FieldNormReader, docs: &[u32], freqs: &[u32], at: usize) -> Pair
    requires { (at < length docs.now) × (at < length freqs.now) }
    ensures { (result.norm ≡ fieldnorm_id reader norms.now (get_or docs.now at 0))
        × (result.freq ≡ freq_code (get_or freqs.now at 0)) }
{
    Pair {
        norm: reader.fieldnorm_id(norms, docs[at]),
        freq: freq_code(freqs[at]),
    }
}

// The values of the n postings behind b full blocks of a list, which starts at a place.
fn fill(
    docs: &[u32],
    freqs: &[u32],
    from: usize,
    b: usize,
    n: usize,
    strict: bool,
    block: &mut Block,
)
    requires { (n ≤ 128) × PostingsIn docs.now freqs.now from (128 * b + n) }
    ensures { Filled (numbers_from docs.now from) (numbers_from freqs.now from) strict b n block.new }
{
    sized(block);
    let at = from + 128 * b;
    let first = b == 0;
    let previous = doc_before(docs, at, first);
    differences(docs, at, n, strict, first, previous, &mut block[DOCS]);
    lowered(freqs, at, n, strict, &mut block[FREQS]);
}

// Full block b, its documents and then its frequencies, with its skip entry; the place after it.
fn write_block(
    docs: &[u32],
    freqs: &[u32],
    from: usize,
    b: usize,
    pair: Pair,
    block: &mut Block,
    out: &mut [u8],
    skip: usize,
    place: usize,
) -> usize
    requires { let d = numbers_from docs.now from in let f = numbers_from freqs.now from in
        PostingsIn docs.now freqs.now from (128 * b + 128) × (skip + 8 ≤ place)
        × (place + length (block_bytes d f b) ≤ length out.old) }
    ensures { let d = numbers_from docs.now from in let f = numbers_from freqs.now from in
        let entry = skip_entry (d (128 * b + 127)) (doc_bits d f b) (freq_bits d f b) pair.norm pair.freq in
        (result ≡ place + length (block_bytes d f b)) × TwoPieces out.old skip entry place (block_bytes d f b) out.new }
{
    fill(docs, freqs, from, b, 128, true, block);
    let doc_bits = num_bits(&block[DOCS]);
    let freq_bits = num_bits(&block[FREQS]);
    let last = docs[from + 128 * b + 127];
    write_skip_entry(out, skip, last, doc_bits, freq_bits, pair.norm, pair.freq);
    let middle = place + 16 * (doc_bits as usize);
    pack(&block[DOCS], doc_bits, out, place);
    pack(&block[FREQS], freq_bits, out, middle);
    middle + 16 * (freq_bits as usize)
}

// The VInts of the n postings behind b full blocks; the place after them.
fn write_tail(
    docs: &[u32],
    freqs: &[u32],
    from: usize,
    b: usize,
    n: usize,
    block: &mut Block,
    out: &mut [u8],
    place: usize,
) -> usize
    requires { let bytes = tail_bytes (numbers_from docs.now from) (numbers_from freqs.now from) b n in
        (n ≤ 128) × PostingsIn docs.now freqs.now from (128 * b + n) × (place + length bytes ≤ length out.old) }
    ensures { let bytes = tail_bytes (numbers_from docs.now from) (numbers_from freqs.now from) b n in
        (result ≡ place + length bytes) × Put out.old place bytes out.new }
{
    fill(docs, freqs, from, b, n, false, block);
    let middle = write_vints(&block[DOCS], n, out, place);
    write_vints(&block[FREQS], n, out, middle)
}

// The n postings from a place on, as a list's skip bytes and postings, at a place of the output; the place after them. The table has, from
// `start` on, which posting of each full block gives its pair.
pub fn write_list(
    norms: &[u8],
    reader: FieldNormReader,
    docs: &[u32],
    freqs: &[u32],
    from: usize,
    n: usize,
    start: usize,
    tops: &Tops,
    out: &mut [u8],
    place: usize,
) -> usize
    requires { let d = numbers_from docs.now from in let f = numbers_from freqs.now from in
        Sound d f n 1048576 × (from + n ≤ length docs.now) × (from + n ≤ length freqs.now)
        × TopsIn tops.now start (n / 128) × (n ≤ 1048576)
        × (place + length (skips_by norms.now reader d f tops.now start (n / 128)) + length (postings_bytes d f n) ≤ length out.old) }
    ensures { let d = numbers_from docs.now from in let f = numbers_from freqs.now from in
        let bytes = skips_by norms.now reader d f tops.now start (n / 128) ++ postings_bytes d f n in
        (result ≡ place + length bytes) × Put out.old place bytes out.new }
{
    let mut block = [[0u32; 128]; 2];
    let blocks = n / 128;
    let mut p = place + 8 * blocks;
    for b in 0..blocks {
        let top = tops[start + b] as usize;
        let pair = pair_at(norms, reader, docs, freqs, from + (128 * b + top));
        let skip = place + 8 * b;
        p = write_block(docs, freqs, from, b, pair, &mut block, out, skip, p);
    }
    write_tail(docs, freqs, from, blocks, n % 128, &mut block, out, p)
}
