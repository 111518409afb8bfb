// Each list's entry, and the parts of the file.
ghost use Rattle.std.specs.Prelude.{◌≡◌, ◌+◌, ◌*◌, ◌≤◌, ◌<◌, length};
ghost use Rattle.notefile.specs.Parts.{entry_at, skips_at, part_of};
ghost use Rattle.notefile.specs.Inner.Given.{HeaderIn, Limits, NormsIn, WeightIn};

use crate::header::{ENTRY_LENGTH, HEADER_LENGTH, Header, read_average};
use bm25::Bm25Weight;
use codec::bits::read_be;

// A list's entry, with the places of its skip bytes and its postings. Weight and average are bits; `skip_entry_len` is the length of one
// skip entry.
#[derive(Clone, Copy)]
pub struct Part {
    pub weight: u32,
    pub average: u32,
    pub count: usize,
    pub skip_entry_len: usize,
    pub skips: usize,
    pub postings: usize,
    pub end: usize,
}

// List l's part, whose skip bytes stand at a place. The nine bytes after the weight are read as two numbers of eight bytes.
fn part_at(file: &[u8], l: usize, at: usize) -> Part
    requires { (entry_at (l + 1) ≤ length file.now) × (l < 32) × (at ≡ skips_at file.now l) × (at < 1099511627776) }
    ensures { result ≡ part_of file.now l }
{
    let e = HEADER_LENGTH + ENTRY_LENGTH * l;
    let weight = read_be(file, e, 4) as u32;
    let x = read_be(file, e + 4, 8);
    let y = read_be(file, e + 5, 8);
    let kind = ((x >> 42) % 2) as usize;
    let skips = ((x >> 18) % 16777216) as usize;
    let postings = (y % 67108864) as usize;
    Part {
        weight,
        average: read_average(file, l),
        count: ((x >> 43) % 2097152) as usize,
        skip_entry_len: 8 + 4 * kind,
        skips: at,
        postings: at + skips,
        end: at + skips + postings,
    }
}

// Where list n's skip bytes stand; of the list count, where the parts end.
pub fn skips_at(file: &[u8], h: Header, n: usize) -> usize
    requires { HeaderIn file.now h × (n ≤ h.lists) }
    ensures { (result ≡ skips_at file.now n) × (result ≤ 2097152 + 134217728 * n) }
{
    let mut at = HEADER_LENGTH + ENTRY_LENGTH * h.lists;
    if h.kind == 0 {
        at += h.documents as usize;
    }
    for l in 0..n {
        let x = part_at(file, l, at);
        at = x.end;
    }
    at
}

// List l's part.
pub fn read_part(file: &[u8], h: Header, l: usize) -> Part
    requires { HeaderIn file.now h × (l < h.lists) }
    ensures { result ≡ part_of file.now l }
{
    part_at(file, l, skips_at(file, h, l))
}

// The struct of a list, with norms that stand ready.
pub fn weight_of(x: Part, norms: &[f32; 256]) -> Bm25Weight
    requires { Limits x × NormsIn x norms.now }
    ensures { WeightIn x result }
{
    let cache = *norms;
    Bm25Weight {
        weight: f32::from_bits(x.weight),
        average: f32::from_bits(x.average),
        cache,
    }
}
