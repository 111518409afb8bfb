// A run as text: a first line, and its rows.
ghost use Rattle.std.specs.Prelude.{◌≤◌, length};
ghost use Rattle.print_text.specs.Text.{first_line};
ghost use Rattle.print_text.specs.Inner.Putting.{Put, Ready, text_of};

use crate::rows::put_rows;
use crate::text::{put, put_number};

// A word and a number.
fn put_first(word: &[u8], number: u64, out: &mut [u8]) -> usize
    requires word_len_bound { length word.now ≤ 8 }
    requires in_bounds { 29 ≤ length out.old }
    ensures { Put (first_line word.now number) 29 0 out.old result out.new }
{
    let a = put(word, out, 0);
    let b = put_number(number, out, a);
    put(b"\n", out, b)
}

// A run's number, its count and its rows.
pub fn put_ranking(
    number: u32,
    count: usize,
    documents: &[u32],
    scores: &[f32],
    out: &mut [u8],
) -> usize
    requires in_bounds { 172061 ≤ length out.old }
    requires count_bound { count ≤ 4096 }
    requires ready { Ready count documents.now scores.now }
    ensures { Put (text_of number count documents.now scores.now) 172061 0 out.old result out.new }
{
    if number != 0 {
        return put_first(b"refused ", number as u64, out);
    }
    let at = put_first(b"reports ", count as u64, out);
    put_rows(documents, scores, count, out, at)
}
