// The values of a block: its documents' differences.
ghost use Rattle.std.specs.Prelude.{◌≡◌, ℕ, ◌+◌, ◌-◌, ◌≤◌, ◌<◌, length, get_or};
ghost use Rattle.compression.specs.Documents.{gap_of, start_of};
ghost use Rattle.encode.specs.Differences.{differ};
ghost use Rattle.encode.specs.Inner.Fronted.{Rising, Fronted};

use compression::documents::gap;

// What the first value is added to.
fn first_base(strict: bool, first: bool, previous: u32) -> u32
    requires { previous + gap_of strict < 4294967296 }
    ensures { result ≡ start_of strict previous first }
{
    if first { 0 } else { previous + gap(strict) }
}

// The differences of n documents from a place on. No turn of the loop waits for the one before it.
pub fn differences(
    docs: &[u32],
    from: usize,
    n: usize,
    strict: bool,
    first: bool,
    previous: u32,
    out: &mut [u32; 128],
)
    requires { (n ≤ 128) × (from + n ≤ length docs.now) × (length out.old ≡ 128) × (previous + gap_of strict < 4294967296)
        × Rising (λ i. get_or docs.now (from + i) 0) strict first previous n }
    ensures { Fronted (differ (λ i. get_or docs.now (from + i) 0) strict first previous) n out.old out.new }
{
    if n == 0 {
        return;
    }
    let add = gap(strict);
    out[0] = docs[from] - first_base(strict, first, previous);
    for i in 1..n {
        out[i] = docs[from + i] - docs[from + i - 1] - add;
    }
}

// n frequencies from a place on, each less what a strict block adds.
pub fn lowered(freqs: &[u32], from: usize, n: usize, strict: bool, out: &mut [u32; 128])
    requires { (n ≤ 128) × (from + n ≤ length freqs.now) × (length out.old ≡ 128)
        × ((i : ℕ) → i < n → gap_of strict ≤ get_or freqs.now (from + i) 0) }
    ensures { Fronted (λ i. get_or freqs.now (from + i) 0 - gap_of strict) n out.old out.new }
{
    let less = gap(strict);
    for i in 0..n {
        out[i] = freqs[from + i] - less;
    }
}
