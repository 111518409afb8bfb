// What a note file is written from: the numbers handed in beside the buffers, and what is found out before anything is written.
#![tactic(auto)]

ghost use Rattle.std.specs.Prelude.{◌≡◌, false, cond, ◌-◌, ◌≤◌, ◌<◌, length, get_or};

// How many documents there are, the norm kind with its code, and the average.
#[derive(Clone, Copy)]
pub struct Head {
    pub documents: u32,
    pub kind: u32,
    pub code: u32,
    pub average: f32,
}

// Contents as they are lent: the head, a norm byte for each document of kind 0, and each list's weight, count, documents and frequencies.
#[derive(Clone, Copy)]
pub struct Contents<'a> {
    pub head: Head,
    pub norms: &'a [u8],
    pub weights: &'a [f32],
    pub counts: &'a [u32],
    pub docs: &'a [u32],
    pub freqs: &'a [u32],
}

// Of contents that are not refused, the length of each list's postings and of the whole file.
#[derive(Clone, Copy)]
pub struct Price {
    pub postings: [usize; 16],
    pub total: usize,
}

// For each full block that contents can have, 16 lists of 8,192, which of its postings has the highest score.
pub type Tops = [u8; 131072];

// The document before a place; 0 before a list's first.
pub fn doc_before(docs: &[u32], at: usize, first: bool) -> u32
    requires { (first ≡ false → 0 < at) × (at ≤ length docs.now) }
    ensures { result ≡ cond first 0 (get_or docs.now (at - 1) 0) }
{
    if first {
        return 0;
    }
    docs[at - 1]
}
