// A full block of contents judged and measured in two loops: rows 7 and 8 of the table, and the two least widths.
#![tactic(auto)]

pub mod found;

ghost use Rattle.std.specs.Prelude.{◌≡◌, ◌+◌, ◌-◌, ◌≤◌, true, length, slice_index};
ghost use Rattle.std.specs.Int.Count.{count_leading_zeros};
ghost use Rattle.compression.specs.Documents.{start_of, rising_below};
ghost use Rattle.frequencies.specs.Frequencies.{freqs_right};
ghost use Rattle.block_look.specs.Inner.Joint.{steps, less_one, Joint};
ghost use Rattle.block_look.specs.Inner.Looked.{Looked};

use crate::found::Look;
use outcome::refusal::Refusal;
use posting_tests::tests::freqs_right;
use std::num::wrapping_sub_u32;

// What the first value of a strict block is added to.
fn base_of(first: bool, previous: u32) -> u32
    requires { previous ≤ 1048576 }
    ensures { result ≡ start_of true previous first }
{
    if first { 0 } else { previous + 1 }
}

// All bits of the documents' differences less 1, the first counted from `base`, each modulo 2^32.
fn doc_or(docs: &[u32], at: usize, base: u32) -> u32
    requires { (at + 128 ≤ length docs.now) × (base ≤ 1048577) }
    ensures { Joint (steps (λ i. slice_index docs.now (at + i)) base) result }
{
    let mut all = wrapping_sub_u32(docs[at], base);
    for i in 1..128 {
        all = all | wrapping_sub_u32(wrapping_sub_u32(docs[at + i], docs[at + i - 1]), 1);
    }
    all
}

// All bits of the frequencies less 1, each modulo 2^32.
fn freq_or(freqs: &[u32], at: usize) -> u32
    requires { at + 128 ≤ length freqs.now }
    ensures { Joint (less_one (λ i. slice_index freqs.now (at + i))) result }
{
    let mut all: u32 = 0;
    for i in 0..128 {
        all = all | wrapping_sub_u32(freqs[at + i], 1);
    }
    all
}

// Whether row 7 lets the documents through: no step of theirs is long, and the last is below the limit.
fn docs_fine(docs: &[u32], at: usize, first: bool, previous: u32, limit: u32, all: u32) -> bool
    requires { (at + 128 ≤ length docs.now) × (previous ≤ 1048576) × (limit ≤ 1048576)
        × Joint (steps (λ i. slice_index docs.now (at + i)) (start_of true previous first)) all }
    ensures { result ≡ rising_below (λ i. slice_index docs.now (at + i)) first previous 128 limit }
{
    if 1048576 <= all {
        return false;
    }
    docs[at + 127] < limit
}

// Whether row 8 lets the frequencies through. Each is looked at only if one of them is above 2^30, or 0.
fn freqs_fine(freqs: &[u32], at: usize, all: u32) -> bool
    requires { (at + 128 ≤ length freqs.now) × Joint (less_one (λ i. slice_index freqs.now (at + i))) all }
    ensures { result ≡ freqs_right (λ i. slice_index freqs.now (at + i)) 128 }
{
    if all < 1073741824 {
        return true;
    }
    freqs_right(freqs, at, 128)
}

// How many bits a number has.
fn bits(x: u32) -> u32
    ensures { result ≡ 32 - count_leading_zeros 32 x }
{
    32 - u32::leading_zeros(x)
}

// A full block's two widths, or what refuses it, of 7 and 8.
pub fn look(
    docs: &[u32],
    freqs: &[u32],
    at: usize,
    first: bool,
    previous: u32,
    limit: u32,
) -> Result<Look, Refusal>
    requires { (at + 128 ≤ length docs.now) × (at + 128 ≤ length freqs.now) × (limit ≤ 1048576) × (previous ≤ 1048576) }
    ensures { Looked docs.now freqs.now at first previous limit result }
{
    let all_docs = doc_or(docs, at, base_of(first, previous));
    if !docs_fine(docs, at, first, previous, limit, all_docs) {
        return Err(Refusal::Documents);
    }
    let all_freqs = freq_or(freqs, at);
    if !freqs_fine(freqs, at, all_freqs) {
        return Err(Refusal::Frequencies);
    }
    Ok(Look {
        doc_bits: bits(all_docs),
        freq_bits: bits(all_freqs),
    })
}
