// A whole note file written, from contents that have been priced.
#![tactic(auto)]

ghost use Rattle.std.specs.Prelude.{◌≡◌, ◌≤◌, length};
ghost use Rattle.pieces.specs.Inner.Written.{Put};
ghost use Rattle.contents.specs.Refusal.{contents_refusal};
ghost use Rattle.contents.specs.Inner.Handed.{contents_in};
ghost use Rattle.house.specs.House.{house_file};
ghost use Rattle.house.specs.Inner.Whole.{PricedWhole};

use contentcheck::reader_of;
use contents::{Contents, Price, Tops};
use list_writer::write_list;
use note_front::write_front;

// The file of contents that are not refused, from the start of the output on.
pub fn write_file(c: Contents<'_>, p: Price, tops: &Tops, out: &mut [u8])
    requires { let d = contents_in c in
        (contents_refusal d ≡ 0) × PricedWhole d p tops.now × (length (house_file d) ≤ length out.old) }
    ensures { Put out.old 0 (house_file (contents_in c.entry)) out.new }
{
    let postings = p.postings;
    write_front(c.head, c.norms, c.weights, c.counts, &postings, out);
    let reader = reader_of(c.head);
    let mut place = 9 + 13 * c.counts.len() + c.norms.len();
    let mut from: usize = 0;
    let mut start: usize = 0;
    for l in 0..c.counts.len() {
        let n = c.counts[l] as usize;
        place = write_list(
            c.norms, reader, c.docs, c.freqs, from, n, start, tops, out, place,
        );
        from += n;
        start += n / 128;
    }
}
