// Rows 1 to 4 of the table, tried on contents, and where their norm codes are read.
#![tactic(auto)]

ghost use Rattle.std.specs.Prelude.{◌≡◌, List, ℕ, ◌≤◌, ◌<◌, eqb, Float, length, get_or};
ghost use Rattle.std.specs.Float.{nan};
ghost use Rattle.arrays.specs.Every.{every};
ghost use Rattle.bm25.specs.Limits.{weight_ok, average_ok};
ghost use Rattle.notefile.specs.Conditions.{list_fits};
ghost use Rattle.outcome.specs.Refusals.{refusal_number};
ghost use Rattle.contents.specs.Contents as spec;
ghost use Rattle.contents.specs.Contents.{lists, list_at, reader_of};
ghost use Rattle.contents.specs.Refusal.{head_right, buffers_right, head_refusal};
ghost use Rattle.contents.specs.Inner.Handed.{contents_of, contents_in};

use contents::{Contents, Head};
use fieldnorm::FieldNormReader;
use outcome::refusal::Refusal;

// Whether row 1 lets so many lists and a head through.
fn head_right(h: Head, lists: usize) -> bool
    ensures { (norms : List ℕ) (weights : List Float) (counts docs freqs : List ℕ) → length counts ≡ lists
        → result ≡ head_right (contents_of h norms weights counts docs freqs) }
{
    if lists > 16 {
        return false;
    }
    if h.documents > 1048576 {
        return false;
    }
    if h.kind > 1 {
        return false;
    }
    if h.kind == 0 {
        return h.code == 0;
    }
    h.code <= 255
}

// Whether row 2 lets an average through. A number is tested by its bits; what is none has no bits of its own.
fn average_right(average: f32) -> bool
    ensures { result ≡ average_ok average }
{
    if average == average {
        return bm25_limits::average_ok(f32::to_bits(average));
    }
    false
}

// Whether row 4 lets a weight through, tested in the same way.
fn weight_right(weight: f32) -> bool
    ensures { result ≡ weight_ok weight }
{
    if weight == weight {
        return bm25_limits::weight_ok(f32::to_bits(weight));
    }
    false
}

// All postings that the counts of at most 16 lists state.
fn total(counts: &[u32]) -> usize
    requires { length counts.now ≤ 16 }
    ensures { (c : spec.Contents) → c.counts ≡ counts.now → result ≡ list_at c (lists c) }
{
    let mut sum: usize = 0;
    for l in 0..counts.len() {
        sum += counts[l] as usize;
    }
    sum
}

// Whether row 3 lets the buffers through.
fn buffers_right(c: Contents<'_>) -> bool
    requires { length c.counts.now ≤ 16 }
    ensures { result ≡ buffers_right (contents_in c.entry) }
{
    let bytes = if c.head.kind == 0 {
        c.head.documents as usize
    } else {
        0
    };
    if c.norms.len() != bytes {
        return false;
    }
    if c.weights.len() != c.counts.len() {
        return false;
    }
    let postings = total(c.counts);
    if c.docs.len() != postings {
        return false;
    }
    c.freqs.len() == postings
}

// Whether row 4 lets a list's weight and count through.
fn list_right(weight: f32, count: u32, documents: u32) -> bool
    ensures { result ≡ list_fits weight count documents }
{
    if weight_right(weight) {
        return count <= documents;
    }
    false
}

// Whether row 4 lets every list's weight and count through.
fn lists_right(documents: u32, weights: &[f32], counts: &[u32]) -> bool
    requires { length weights.now ≡ length counts.now }
    ensures { result ≡ every (length counts.now) (λ l. list_fits (get_or weights.now l nan) (get_or counts.now l 0) documents) }
{
    let mut right = true;
    for l in 0..counts.len() {
        if !list_right(weights[l], counts[l], documents) {
            right = false;
        }
    }
    right
}

// Whether rows 1 to 4 let contents through; the first that does not refuses them.
pub fn check_head(c: Contents<'_>) -> Result<(), Refusal>
    ensures { refusal_number result ≡ head_refusal (contents_in c.entry) }
{
    if !head_right(c.head, c.counts.len()) {
        return Err(Refusal::Header);
    }
    if !average_right(c.head.average) {
        return Err(Refusal::Average);
    }
    if !buffers_right(c) {
        return Err(Refusal::Length);
    }
    if !lists_right(c.head.documents, c.weights, c.counts) {
        return Err(Refusal::Entry);
    }
    Ok(())
}

// Where norm codes are read: from the bytes handed in, or one code for all.
pub fn reader_of(h: Head) -> FieldNormReader
    requires { h.code < 256 }
    ensures { (norms : List ℕ) (weights : List Float) (counts docs freqs : List ℕ)
        → result ≡ reader_of (contents_of h norms weights counts docs freqs) (eqb h.kind 0) }
{
    if h.kind == 0 {
        return FieldNormReader::FromData(0);
    }
    FieldNormReader::Const(h.code as u8)
}
