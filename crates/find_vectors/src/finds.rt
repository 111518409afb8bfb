// A find's case: 14 words behind its size, the query, the reports expected as pairs, then the notes, and the note file's bytes.
ghost use Rattle.std.specs.Prelude.{◌<◌};

use noterank::noterank_find;
use samples::rows::{DOCUMENT, ROWS, SCORE, rows_agree};
use samples::words::{FEW, Replayed, part, read_numbers, size, threshold, word};

// The find of the case at a place: after its size and the lengths of file and query come mode, scoring, the start's kind and bits, and k.
fn call(
    data: &[u8],
    at: usize,
    file: &[u8],
    query: &[u32],
    reported: &mut [u32],
    values: &mut [f32],
    documents: &mut [u32],
    scores: &mut [f32],
    count: &mut u32,
) -> u32
    requires { at < 4000000000 }
{
    let start = threshold(word(data, at + 20), word(data, at + 24));
    noterank_find(
        file,
        query,
        word(data, at + 12),
        word(data, at + 16),
        start,
        word(data, at + 28),
        reported,
        values,
        documents,
        scores,
        count,
    )
}

// Whether number, count and all rows are the expected ones. Behind the lengths of the four buffers stand the number and how many reports
// and notes there are; the rows expected stand at a place of their own.
fn agree(
    data: &[u8],
    at: usize,
    rows_at: usize,
    code: u32,
    count: u32,
    reported: &[u32; ROWS],
    values: &[f32; ROWS],
    documents: &[u32; ROWS],
    scores: &[f32; ROWS],
) -> bool
    requires { (at < 4000000000) × (rows_at < 4100000000) }
{
    let reports = size(data, at + 52, ROWS);
    let notes = size(data, at + 56, ROWS);
    if code != word(data, at + 48) {
        return false;
    }
    if count as usize != notes {
        return false;
    }
    if !rows_agree(data, rows_at, reports, reported, values) {
        return false;
    }
    rows_agree(data, rows_at + 8 * reports, notes, documents, scores)
}

// The find with buffers of the case's lengths, held against what is expected.
fn hold(data: &[u8], at: usize, file: &[u8], query: &[u32], rows_at: usize) -> Replayed
    requires { (at < 4000000000) × (rows_at < 4100000000) }
{
    let reported_len = size(data, at + 32, ROWS);
    let values_len = size(data, at + 36, ROWS);
    let documents_len = size(data, at + 40, ROWS);
    let scores_len = size(data, at + 44, ROWS);
    let mut reported = [DOCUMENT; ROWS];
    let mut values = [SCORE; ROWS];
    let mut documents = [DOCUMENT; ROWS];
    let mut scores = [SCORE; ROWS];
    let mut count = 1u32;
    let code = call(
        data,
        at,
        file,
        query,
        &mut reported[..reported_len],
        &mut values[..values_len],
        &mut documents[..documents_len],
        &mut scores[..scores_len],
        &mut count,
    );
    let same = agree(
        data, at, rows_at, code, count, &reported, &values, &documents, &scores,
    );
    Replayed { code, same }
}

// The case at a place.
pub fn replay_find(data: &[u8], at: usize) -> Replayed
    requires { at < 4000000000 }
{
    let query_len = size(data, at + 8, FEW);
    let reports = size(data, at + 52, ROWS);
    let notes = size(data, at + 56, ROWS);
    let rows_at = at + 60 + 4 * query_len;
    let file_len = size(data, at + 4, 32768);
    let file = part(data, rows_at + 8 * reports + 8 * notes, file_len);
    let query: [u32; FEW] = read_numbers(data, at + 60);
    hold(data, at, file, &query[..query_len], rows_at)
}
