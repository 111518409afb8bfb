// Rows of documents and scores: what stands in them before a call, and whether they are as the oracle has them.
ghost use Rattle.std.specs.Prelude.{◌<◌};

use crate::words::{number, word};

// The most rows of a case.
pub const ROWS: usize = 256;

// What stands in cells that no call has written.
pub const DOCUMENT: u32 = 4000000000;

pub const SCORE: f32 = 0.5;

// Whether the rows below the count are the expected ones, and every cell behind them is as it was.
pub fn rows_agree(
    data: &[u8],
    at: usize,
    count: usize,
    documents: &[u32; ROWS],
    scores: &[f32; ROWS],
) -> bool
    requires { at < 4294967296 }
{
    for i in 0..ROWS {
        let mut document = DOCUMENT;
        let mut score = SCORE;
        if i < count {
            document = word(data, at + 8 * i);
            score = number(word(data, at + 8 * i + 4));
        }
        if documents[i] != document {
            return false;
        }
        if scores[i] != score {
            return false;
        }
    }
    true
}
