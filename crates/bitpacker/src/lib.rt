// Rows of a packed block: four values, one of each lane. The lane is a value's place in its row, the bit place is carried from row to row,
// and no index is divided.
#![tactic(auto)]

ghost use Rattle.std.specs.Prelude.{◌≡◌, ◌⊎◌, ℕ, ◌+◌, ◌*◌, ◌/◌, ◌%◌, ◌^◌, ◌≤◌, ◌<◌, length};
ghost use Rattle.std.specs.Int.Bits.{bit_and};
ghost use Rattle.codec.specs.Bits.{word_at};
ghost use Rattle.bitpacker.specs.Packed.{bit_place};
ghost use Rattle.bitpacker.specs.Inner.Rows.{Across, EachLane, First, InBytes, InNext, in_lane, set_four, Unpacked, Whole};

use codec::bits::read_u32;

// One number of each lane. Fields, and not an array: each function below names its lanes, and would read the same by numbers.
#[derive(Clone, Copy)]
pub struct Four {
    pub a: u32,
    pub b: u32,
    pub c: u32,
    pub d: u32,
}

// The bit place that is carried from row to row: of the words before `next`, the bits that are still to come in each lane, and how many.
#[derive(Clone, Copy)]
pub struct BitPlace {
    pub rest: Four,
    pub left: u32,
    pub next: usize,
}

// The lanes' words at p.
fn words_at(s: &[u8], p: usize) -> Four
    requires { p + 16 ≤ length s.now }
    ensures { EachLane (λ n. word_at s.now (p + 4 * n)) result }
{
    Four {
        a: read_u32(s, p),
        b: read_u32(s, p + 4),
        c: read_u32(s, p + 8),
        d: read_u32(s, p + 12),
    }
}

// Each lane's next word above its `left` bits.
fn joined(low: Four, high: Four, left: u32) -> Four
    requires { (left < 32) × ((n : ℕ) → in_lane low n < 2 ^ left) }
    ensures { EachLane (λ n. (in_lane low n + 2 ^ left * in_lane high n) % 2 ^ 32) result }
{
    Four {
        a: low.a | (high.a << left),
        b: low.b | (high.b << left),
        c: low.c | (high.c << left),
        d: low.d | (high.d << left),
    }
}

// What stands above each lane's lowest bits.
fn shifted(x: Four, by: u32) -> Four
    requires { by < 32 }
    ensures { EachLane (λ n. in_lane x n / 2 ^ by) result }
{
    Four {
        a: x.a >> by,
        b: x.b >> by,
        c: x.c >> by,
        d: x.d >> by,
    }
}

// Each lane's lowest bits, as the values from i on.
fn put(x: Four, mask: u32, i: usize, out: &mut [u32; 128])
    requires { (i + 4 ≤ 128) × (length out.old ≡ 128) }
    ensures { out.new ≡ set_four out.old i (λ n. bit_and (in_lane x n) mask) }
{
    out[i] = x.a & mask;
    out[i + 1] = x.b & mask;
    out[i + 2] = x.c & mask;
    out[i + 3] = x.d & mask;
}

// A row whose values end in the words before `next`.
fn whole(place: BitPlace, width: u32, mask: u32, i: usize, out: &mut [u32; 128]) -> BitPlace
    requires { (width < 32) × (width ≤ place.left) × (i + 4 ≤ 128) × (length out.old ≡ 128) }
    ensures { Whole place width mask i out.old out.new result }
{
    put(place.rest, mask, i, out);
    BitPlace {
        rest: shifted(place.rest, width),
        left: place.left - width,
        next: place.next,
    }
}

// A row whose values end in the words at `next`.
fn across(
    s: &[u8],
    place: BitPlace,
    width: u32,
    mask: u32,
    i: usize,
    out: &mut [u32; 128],
) -> BitPlace
    requires { (width < 32) × (place.left < width) × InNext (length s.now) place × (i + 4 ≤ 128) × (length out.old ≡ 128) }
    ensures { Across s.now place width mask i out.old out.new result }
{
    let words = words_at(s, place.next);
    put(joined(place.rest, words, place.left), mask, i, out);
    let used = width - place.left;
    BitPlace {
        rest: shifted(words, used),
        left: 32 - used,
        next: place.next + 16,
    }
}

// The next row, in whichever words it ends.
fn row(s: &[u8], place: BitPlace, width: u32, mask: u32, i: usize, out: &mut [u32; 128]) -> BitPlace
    requires { (width < 32) × (place.left < width → InNext (length s.now) place) × (i + 4 ≤ 128) × (length out.old ≡ 128) }
    ensures { ((width ≤ place.left) × Whole place width mask i out.old out.new result)
        ⊎ ((place.left < width) × Across s.now place width mask i out.old out.new result) }
{
    if width <= place.left {
        return whole(place, width, mask, i, out);
    }
    across(s, place, width, mask, i, out)
}

// Eight rows, from value i on. It begins `start` bits into word number `word` of its lane, which is its bit place; from there on the
// place is carried.
pub fn eight(
    s: &[u8],
    at: usize,
    width: u32,
    word: usize,
    start: u32,
    i: usize,
    out: &mut [u32; 128],
)
    requires { InBytes (length s.now) at width × (start < 32) × (i + 32 ≤ 128) × (i % 4 ≡ 0)
        × (32 * word + start ≡ bit_place width i) × First s.now at width i out.old }
    ensures { First s.now at width (i + 32) out.new }
{
    let unit: u32 = 1 << width;
    let mask = unit - 1;
    let p = at + 16 * word;
    let words = words_at(s, p);
    let mut place = BitPlace {
        rest: shifted(words, start),
        left: 32 - start,
        next: p + 16,
    };
    for n in 0..8 {
        place = row(s, place, width, mask, i + 4 * n, out);
    }
}

// The values of a block of width 32 are its words.
pub fn copy(s: &[u8], at: usize, out: &mut [u32; 128])
    requires { (at + 512 ≤ length s.now) × (length out.old ≡ 128) }
    ensures { Unpacked s.now at 32 out.new }
{
    for i in 0..128 {
        out[i] = read_u32(s, at + 4 * i);
    }
}
