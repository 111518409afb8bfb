// What stands before the lists of a note file: its header, their entries and the norm bytes.
#![tactic(auto)]

ghost use Rattle.pieces.specs.Inner.Written.{Put};
ghost use Rattle.note_front.specs.Inner.Front.{all_entries, EntriesFit, FrontFits, front_bytes};

use contents::Head;
use encode::fields::{write_entry, write_header};
use pieces::copy_bytes;

// The entries of the lists, each with the length of its postings; a skip entry of 8 bytes stands for each full block.
fn write_entries(weights: &[f32], counts: &[u32], postings: &[usize; 16], out: &mut [u8])
    requires { EntriesFit weights.now counts.now postings.now out.old }
    ensures { Put out.old 9 (all_entries weights.now counts.now postings.now) out.new }
{
    for l in 0..counts.len() {
        let n = counts[l] as u64;
        write_entry(
            out,
            9 + 13 * l,
            f32::to_bits(weights[l]) as u64,
            n,
            0,
            8 * (n / 128),
            postings[l] as u64,
        );
    }
}

// The header, the entries and the norm bytes, from the start of the output on.
pub fn write_front(
    h: Head,
    norms: &[u8],
    weights: &[f32],
    counts: &[u32],
    postings: &[usize; 16],
    out: &mut [u8],
)
    requires { FrontFits h norms.now weights.now counts.now postings.now out.old }
    ensures { Put out.old 0 (front_bytes h norms.now weights.now counts.now postings.now) out.new }
{
    write_header(
        out,
        0,
        h.kind as u64,
        counts.len() as u64,
        h.code as u64,
        h.documents as u64,
        f32::to_bits(h.average) as u64,
    );
    write_entries(weights, counts, postings, out);
    copy_bytes(norms, out, 9 + 13 * counts.len());
}
