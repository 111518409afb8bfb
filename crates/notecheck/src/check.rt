// Whether a file is accepted: the table's conditions 1 to 9 in its order.
ghost use Rattle.std.specs.Prelude.{◌≡◌};
ghost use Rattle.notefile.specs.Refusal.{file_refusal};
ghost use Rattle.notefile.specs.Inner.Order.{lists_refusal};
ghost use Rattle.notefile.specs.Inner.Given.{FileIn};
ghost use Rattle.outcome.specs.Refusals.{refusal_number};

use bm25::{compute_tf_cache, renew_tf_cache};
use headcheck::entry::entries_right;
use headcheck::header::header_right;
use listcheck::list::check_list;
use notefile::header::{
    ENTRY_LENGTH, HEADER_LENGTH, Header, norm_reader, read_average, read_header,
};
use notefile::part::{read_part, skips_at};
use outcome::refusal::Refusal;

// Whether the lists are accepted, the first list's refusal first.
fn check_lists(file: &[u8], h: Header) -> Result<(), Refusal>
    requires { FileIn file.now h }
    ensures { refusal_number result ≡ lists_refusal file.now h.lists }
{
    let lists = h.lists;
    let reader = norm_reader(file, h);
    let mut average = read_average(file, 0);
    let mut norms = compute_tf_cache(f32::from_bits(average));
    for l in 0..lists {
        let x = read_part(file, h, l);
        renew_tf_cache(x.average, average, &mut norms);
        average = x.average;
        check_list(file, h.documents, reader, x, &norms)?;
    }
    Ok(())
}

// Whether a file is accepted, for any bytes at all.
pub fn check(file: &[u8]) -> Result<(), Refusal>
    ensures { refusal_number result ≡ file_refusal file.now }
{
    if !header_right(file) {
        return Err(Refusal::Header);
    }
    let average = read_average(file, 0);
    if !bm25_limits::average_ok(average) {
        return Err(Refusal::Average);
    }
    let h = read_header(file);
    if file.len() < HEADER_LENGTH + ENTRY_LENGTH * h.lists {
        return Err(Refusal::Length);
    }
    let end = skips_at(file, h, h.lists);
    if file.len() != end {
        return Err(Refusal::Length);
    }
    if !entries_right(file, h) {
        return Err(Refusal::Entry);
    }
    check_lists(file, h)
}
