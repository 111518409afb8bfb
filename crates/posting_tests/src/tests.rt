// Rows 7 and 8 of the table, tried on a block's postings where they stand in their buffers.
ghost use Rattle.std.specs.Prelude.{◌≡◌, ◌+◌, ◌≤◌, length, get_or};
ghost use Rattle.compression.specs.Documents.{rising_below};
ghost use Rattle.frequencies.specs.Frequencies.{freqs_right};
ghost use Rattle.encode.specs.Inner.Fronted.{Fronted};

use compression::documents::rising;

// Whether row 7 lets n documents from a place on through, with the document before them. The last of rising documents is the highest.
pub fn docs_right(docs: &[u32], at: usize, n: usize, first: bool, previous: u32, limit: u32) -> bool
    requires { at + n ≤ length docs.now }
    ensures { result ≡ rising_below (λ i. get_or docs.now (at + i) 0) first previous n limit }
{
    if n == 0 {
        return true;
    }
    if !first {
        if docs[at] <= previous {
            return false;
        }
    }
    if limit <= docs[at + n - 1] {
        return false;
    }
    rising(&docs[at..at + n])
}

// Whether row 8 lets n frequencies from a place on through.
pub fn freqs_right(freqs: &[u32], at: usize, n: usize) -> bool
    requires { at + n ≤ length freqs.now }
    ensures { result ≡ freqs_right (λ i. get_or freqs.now (at + i) 0) n }
{
    let mut right = true;
    for i in 0..n {
        let f = freqs[at + i];
        if f == 0 {
            right = false;
        }
        if f > 2013265944 {
            right = false;
        }
    }
    right
}

// An array of 128 has 128 places.
pub fn places(values: &[u32; 128]) -> usize
    ensures { length values.now ≡ 128 }
{
    values.len()
}

// n numbers from a place on.
pub fn copy(from: &[u32], at: usize, n: usize, out: &mut [u32; 128])
    requires { (n ≤ 128) × (at + n ≤ length from.now) × (length out.old ≡ 128) }
    ensures { Fronted (λ i. get_or from.now (at + i) 0) n out.old out.new }
{
    out[..n].copy_from_slice(&from[at..at + n]);
}
