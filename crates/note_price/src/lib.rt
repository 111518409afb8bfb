// What contents are refused for, and the lengths of their file's parts: the first half of writing, which writes nothing.
#![tactic(auto)]

ghost use Rattle.std.specs.Prelude.{◌≡◌};
ghost use Rattle.contents.specs.Refusal.{head_refusal};
ghost use Rattle.contents.specs.Inner.Handed.{contents_in};
ghost use Rattle.note_price.specs.Inner.Prices.{PriceIs};

use bm25::{Bm25Weight, compute_tf_cache};
use contentcheck::{check_head, reader_of};
use contents::{Contents, Price, Tops};
use list_price::list::price_list;
use outcome::refusal::Refusal;

// The price of contents whose rows 1 to 4 are right, list by list; the table gets the highest postings of all their full blocks.
fn price_lists(c: Contents<'_>, tops: &mut Tops) -> Result<Price, Refusal>
    requires { head_refusal (contents_in c) ≡ 0 }
    ensures { PriceIs (contents_in c.entry) result tops.new }
{
    let limit = c.head.documents;
    let reader = reader_of(c.head);
    let cache = compute_tf_cache(c.head.average);
    let mut postings = [0usize; 16];
    let mut total = 9 + 13 * c.counts.len() + c.norms.len();
    let mut from: usize = 0;
    let mut start: usize = 0;
    for l in 0..c.counts.len() {
        let n = c.counts[l] as usize;
        let w = Bm25Weight {
            weight: c.weights[l],
            average: c.head.average,
            cache,
        };
        let bytes = price_list(
            c.norms, reader, limit, w, c.docs, c.freqs, from, n, start, tops,
        )?;
        postings[l] = bytes;
        total += 8 * (n / 128) + bytes;
        from += n;
        start += n / 128;
    }
    Ok(Price { postings, total })
}

// The price of any contents.
pub fn price(c: Contents<'_>, tops: &mut Tops) -> Result<Price, Refusal>
    ensures { PriceIs (contents_in c.entry) result tops.new }
{
    check_head(c)?;
    price_lists(c, tops)
}
