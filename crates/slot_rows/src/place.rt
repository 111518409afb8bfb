// A slot's two rows of numbers: those of its list's part, and those of its place. Structs are made of them at a block change only.
ghost use Rattle.std.specs.Prelude.{◌≡◌, get_or};
ghost use Rattle.notefile.specs.Inner.Given.{BlocksIn, Limits, NormsIn, WeightIn};
ghost use Rattle.slot_rows.specs.Inner.Rows.{part_in, part_row, PartRow, postings_in, place_row, Narrow, Standing};

use bm25::Bm25Weight;
use notefile::part;
use notefile::part::Part;
use postings::cursor::SegmentPostings;
use skip_reader::skip::SkipReader;

// A scorer's place, and those of all slots.
pub type Place = [usize; 10];

pub type Places = [[usize; 10]; 16];

// The blocks that the slots decoded last.
pub type Blocks = [[[u32; 128]; 2]; 16];

// Where a place's numbers stand in its row. The last three say what is kept of its list: whether the block's bound is known,
// whether the scores of the block decoded last are made, and the block behind those whose bounds stand ready, or 0.
pub const BLOCK: usize = 0;

const BYTE_OFFSET: usize = 1;

const PREVIOUS: usize = 2;

pub const LAST: usize = 3;

pub const LOADED: usize = 4;

pub const DECODED: usize = 5;

pub const CUR: usize = 6;

pub const BOUND: usize = 7;

pub const SCORED: usize = 8;

pub const AHEAD: usize = 9;

// The two values of the first two; and of the third where no bounds stand ready.
const UNKNOWN: usize = 0;

pub const KNOWN: usize = 1;

const UNMADE: usize = 0;

pub const MADE: usize = 1;

pub const NOWHERE: usize = 0;

// Where a part's number of postings stands in its row, and its list bound.
pub const COUNT: usize = 2;

pub const MAX_SCORE: usize = 7;

// A part's numbers and its list bound's bits, put into a row.
pub fn keep_part(x: Part, max_score: u32, list: &mut [usize; 8])
    ensures { (list.new ≡ part_row x max_score) × PartRow list.new }
{
    *list = [
        x.weight as usize,
        x.average as usize,
        x.count,
        x.skip_entry_len,
        x.skips,
        x.postings,
        x.end,
        max_score as usize,
    ];
}

// The part of a row.
pub fn part_of(list: &[usize; 8]) -> Part
    requires { PartRow list.now }
    ensures { result ≡ part_in list.now }
{
    Part {
        weight: list[0] as u32,
        average: list[1] as u32,
        count: list[COUNT],
        skip_entry_len: list[3],
        skips: list[4],
        postings: list[5],
        end: list[6],
    }
}

// The struct of a row's list, with its norms.
pub fn weight_of(list: &[usize; 8], norms: &[f32; 256]) -> Bm25Weight
    requires { PartRow list.now × Limits (part_in list.now) × NormsIn (part_in list.now) norms.now }
    ensures { WeightIn (part_in list.now) result }
{
    let x = part_of(list);
    part::weight_of(x, norms)
}

// A place's numbers, put into a row. Its bound is not known, and its scores are not made; bounds that stand ready still do.
pub fn keep(p: SegmentPostings, place: &mut Place)
    ensures { (place.new ≡ place_row p 0 0 (get_or place.old 9 0)) × Narrow p }
{
    let reader = p.skip_reader;
    let ahead = place[AHEAD];
    *place = [
        reader.block,
        reader.byte_offset,
        reader.last_doc_in_previous_block as usize,
        reader.last_doc_in_block as usize,
        usize::from(p.block_loaded),
        p.decoded,
        p.cur,
        UNKNOWN,
        UNMADE,
        ahead,
    ];
}

// The place of a row. Its skip reader reads the block's entry again.
pub fn postings_of(file: &[u8], x: Part, place: &Place) -> SegmentPostings
    requires { BlocksIn file.now x × Standing file.now x place.now }
    ensures { result ≡ postings_in file.now x place.now }
{
    let previous = place[PREVIOUS] as u32;
    let skip_reader = SkipReader::on(file, x, place[BLOCK], place[BYTE_OFFSET], previous);
    SegmentPostings {
        skip_reader,
        block_loaded: place[LOADED] == 1,
        decoded: place[DECODED],
        cur: place[CUR],
    }
}
