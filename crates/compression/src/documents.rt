// Documents by differences: prefix sums in place, and whether the documents are right.
ghost use Rattle.std.specs.Prelude.{◌≡◌, ℕ, ◌+◌, ◌-◌, ◌%◌, ◌<◌, ◌≤◌, true, length, nat_lt, slice_index};
ghost use Rattle.arrays.specs.Every.{every};
ghost use Rattle.compression.specs.Documents.{gap_of, start_of};
ghost use Rattle.compression.specs.Inner.Sums.{FourSums, Summed, Narrow, Checked};

use bitpacker::Four;
use std::num::wrapping_add_u32;

// What a strict block adds.
pub fn gap(strict: bool) -> u32
    ensures { result ≡ gap_of strict }
{
    if strict { 1 } else { 0 }
}

// The previous document in 32 bits: -1 is the largest number.
fn before(first: bool, previous: u32, strict: bool) -> u32
    ensures { (result + gap_of strict) % 4294967296 ≡ start_of strict previous first % 4294967296 }
{
    if first {
        if strict { 4294967295 } else { 0 }
    } else {
        previous
    }
}

// The four documents after p. One sum a row waits for p.
fn four_sums(p: u32, gap: u32, a: u32, b: u32, c: u32, d: u32) -> Four
    ensures { FourSums p gap a b c d result }
{
    let x = wrapping_add_u32(a, gap);
    let xy = wrapping_add_u32(x, wrapping_add_u32(b, gap));
    let z = wrapping_add_u32(c, gap);
    let zw = wrapping_add_u32(z, wrapping_add_u32(d, gap));
    Four {
        a: wrapping_add_u32(p, x),
        b: wrapping_add_u32(p, xy),
        c: wrapping_add_u32(p, wrapping_add_u32(xy, z)),
        d: wrapping_add_u32(p, wrapping_add_u32(xy, zw)),
    }
}

// The values of a block turned into its documents, each in 32 bits.
pub fn sums(values: &mut [u32; 128], strict: bool, first: bool, previous: u32)
    requires { length values.old ≡ 128 }
    ensures { Summed values.old strict first previous values.new }
{
    let add = gap(strict);
    let mut p = before(first, previous, strict);
    for row in 0..32 {
        let i = 4 * row;
        let x = four_sums(
            p,
            add,
            values[i],
            values[i + 1],
            values[i + 2],
            values[i + 3],
        );
        values[i] = x.a;
        values[i + 1] = x.b;
        values[i + 2] = x.c;
        values[i + 3] = x.d;
        p = x.d;
    }
}

// Whether each document is above the one before it. All are looked at: without an early return they are compared many at a time.
pub fn rising(docs: &[u32]) -> bool
    ensures { result ≡ every (length docs.now - 1) (λ i. nat_lt (slice_index docs.now i) (slice_index docs.now (i + 1))) }
{
    let mut right = true;
    for i in 1..docs.len() {
        if docs[i] <= docs[i - 1] {
            right = false;
        }
    }
    right
}

// The same as `sums`, and whether the first n documents are right. A sum that leaves 32 bits falls, so these tests see it. `narrow` says
// that none can leave them; then strict documents rise.
pub fn documents(
    values: &mut [u32; 128],
    n: usize,
    strict: bool,
    first: bool,
    previous: u32,
    limit: u32,
    narrow: bool,
) -> bool
    requires { (n ≤ 128) × (length values.old ≡ 128) × ((k : ℕ) → k < n → slice_index values.old k < 4294967296)
        × (narrow ≡ true → Narrow values.old n strict previous) }
    ensures { Checked values.old n strict first previous limit result values.new }
{
    sums(values, strict, first, previous);
    if n == 0 {
        return true;
    }
    let head = values[0];
    if !first {
        if head <= previous {
            return false;
        }
    }
    let last = values[n - 1];
    if limit <= last {
        return false;
    }
    if narrow {
        return true;
    }
    rising(&values[..n])
}
