// The words of a sample: numbers, thresholds, rows of words, parts; and what the replay of a case gives.
ghost use Rattle.std.specs.Prelude.{◌≤◌, ◌<◌};

use codec::bits::read_u32;

// The most numbers of a short row.
pub const FEW: usize = 32;

// The most numbers of a long row.
pub const MANY: usize = 512;

// The word at a place of the sample; 0 past its end.
pub fn word(data: &[u8], at: usize) -> u32 {
    if data.len() < 4 {
        return 0;
    }
    if data.len() - 4 < at {
        return 0;
    }
    read_u32(data, at)
}

// The same, and no more than the most.
pub fn size(data: &[u8], at: usize, most: usize) -> usize
    ensures { result ≤ most }
{
    let n = word(data, at) as usize;
    if n < most { n } else { most }
}

// The number of a bit pattern of clear sign; 0 for one that is none.
pub fn number(bits: u32) -> f32 {
    if bm25_limits::weight_ok(bits) {
        return f32::from_bits(bits);
    }
    if bm25_limits::average_ok(bits) {
        return f32::from_bits(bits);
    }
    0.0
}

// A threshold, a weight or an average: a number, its negative, a NaN, or an infinity.
pub fn threshold(kind: u32, bits: u32) -> f32 {
    if kind == 0 {
        return number(bits);
    }
    if kind == 1 {
        return 0.0 - number(bits);
    }
    if kind == 2 {
        return 0.0 / 0.0;
    }
    1.0 / 0.0
}

// A row of numbers.
pub fn read_numbers<const N: usize>(data: &[u8], at: usize) -> [u32; N]
    requires { (at < 4294967296) × (N < 4294967296) }
{
    let mut out = [0u32; N];
    for i in 0..N {
        out[i] = word(data, at + 4 * i);
    }
    out
}

// A short row of thresholds, each its kind and its bits.
pub fn read_thresholds(data: &[u8], at: usize) -> [f32; FEW]
    requires { at < 4294967296 }
{
    let mut out = [0.0f32; FEW];
    for i in 0..FEW {
        out[i] = threshold(word(data, at + 8 * i), word(data, at + 8 * i + 4));
    }
    out
}

// The bytes of the sample at a place; none if they are not all there.
pub fn part(data: &[u8], at: usize, n: usize) -> &[u8] {
    if data.len() < at {
        return &data[..0];
    }
    if data.len() - at < n {
        return &data[..0];
    }
    let end = at + n;
    &data[at..end]
}

// What a case returned, and whether that and what it wrote are as the oracle has them.
#[derive(Clone, Copy)]
pub struct Replayed {
    pub code: u32,
    pub same: bool,
}
