// A run's case: 14 words behind its size, the query, the script as pairs, the rows expected as pairs, and the note file's bytes.
ghost use Rattle.std.specs.Prelude.{◌<◌};

use noterank::noterank_run;
use samples::rows::{DOCUMENT, ROWS, SCORE, rows_agree};
use samples::words::{FEW, Replayed, part, read_numbers, read_thresholds, size, threshold, word};

// The run of the case at a place: after its size and the lengths of file and query come walk, mode, scoring, rule, the start's kind and
// bits, and k.
fn call(
    data: &[u8],
    at: usize,
    file: &[u8],
    query: &[u32],
    script: &[f32],
    documents: &mut [u32],
    scores: &mut [f32],
    count: &mut u32,
) -> u32
    requires { at < 4000000000 }
{
    let start = threshold(word(data, at + 28), word(data, at + 32));
    noterank_run(
        file,
        query,
        word(data, at + 12),
        word(data, at + 16),
        word(data, at + 20),
        word(data, at + 24),
        start,
        word(data, at + 36),
        script,
        documents,
        scores,
        count,
    )
}

// Then, behind the script's length, the lengths of both buffers, the number and the count expected; the rows expected stand at a place of
// their own.
fn hold(
    data: &[u8],
    at: usize,
    file: &[u8],
    query: &[u32],
    script: &[f32],
    rows_at: usize,
    expected: usize,
) -> Replayed
    requires { (at < 4000000000) × (rows_at < 4294967296) }
{
    let documents_len = size(data, at + 44, ROWS);
    let scores_len = size(data, at + 48, ROWS);
    let mut documents = [DOCUMENT; ROWS];
    let mut scores = [SCORE; ROWS];
    let mut count = 1u32;
    let code = call(
        data,
        at,
        file,
        query,
        script,
        &mut documents[..documents_len],
        &mut scores[..scores_len],
        &mut count,
    );
    if code != word(data, at + 52) {
        return Replayed { code, same: false };
    }
    if count as usize != expected {
        return Replayed { code, same: false };
    }
    let same = rows_agree(data, rows_at, expected, &documents, &scores);
    Replayed { code, same }
}

// The case at a place.
pub fn replay_run(data: &[u8], at: usize) -> Replayed
    requires { at < 4000000000 }
{
    let query_len = size(data, at + 8, FEW);
    let script_len = size(data, at + 40, FEW);
    let expected = size(data, at + 56, ROWS);
    let script_at = at + 60 + 4 * query_len;
    let rows_at = script_at + 8 * script_len;
    let file_len = size(data, at + 4, 32768);
    let file = part(data, rows_at + 8 * expected, file_len);
    let query: [u32; FEW] = read_numbers(data, at + 60);
    let script = read_thresholds(data, script_at);
    hold(
        data,
        at,
        file,
        &query[..query_len],
        &script[..script_len],
        rows_at,
        expected,
    )
}
