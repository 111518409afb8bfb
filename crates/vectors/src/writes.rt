// A write's case: 13 words behind its size, the weights as pairs, counts, documents, frequencies, the norm bytes and the file expected.
ghost use Rattle.std.specs.Prelude.{◌<◌};

use noterank::noterank_write;
use samples::words::{
    FEW, MANY, Replayed, part, read_numbers, read_thresholds, size, threshold, word,
};

// The most bytes of an output.
const OUTPUT: usize = 4096;

// What stands in bytes that no write has written.
const BYTE: u8 = 165;

// Whether the output begins with the file expected, and every byte behind it is as it was.
fn bytes_agree(out: &[u8; OUTPUT], file: &[u8]) -> bool {
    for i in 0..OUTPUT {
        let mut byte = BYTE;
        if i < file.len() {
            byte = file[i];
        }
        if out[i] != byte {
            return false;
        }
    }
    true
}

// The write of the case at a place: after its size come the number of documents, the norms' kind, code and length, and the average.
fn call(
    data: &[u8],
    at: usize,
    norms: &[u8],
    weights: &[f32],
    counts: &[u32],
    docs: &[u32],
    freqs: &[u32],
    out: &mut [u8],
    length: &mut u32,
) -> u32
    requires { at < 4000000000 }
{
    let average = threshold(word(data, at + 20), word(data, at + 24));
    noterank_write(
        word(data, at + 4),
        word(data, at + 8),
        word(data, at + 12),
        norms,
        average,
        weights,
        counts,
        docs,
        freqs,
        out,
        length,
    )
}

// Then, behind the lengths of weights, counts, documents and frequencies, the output's length, and the number and the length expected.
fn hold(
    data: &[u8],
    at: usize,
    norms: &[u8],
    weights: &[f32],
    counts: &[u32],
    docs: &[u32],
    freqs: &[u32],
    file: &[u8],
) -> Replayed
    requires { at < 4000000000 }
{
    let out_len = size(data, at + 44, OUTPUT);
    let mut out = [BYTE; OUTPUT];
    let mut length = 1u32;
    let code = call(
        data,
        at,
        norms,
        weights,
        counts,
        docs,
        freqs,
        &mut out[..out_len],
        &mut length,
    );
    if code != word(data, at + 48) {
        return Replayed { code, same: false };
    }
    if length as usize != file.len() {
        return Replayed { code, same: false };
    }
    let same = bytes_agree(&out, file);
    Replayed { code, same }
}

// The case at a place.
pub fn replay_write(data: &[u8], at: usize) -> Replayed
    requires { at < 4000000000 }
{
    let weights_len = size(data, at + 28, FEW);
    let counts_len = size(data, at + 32, FEW);
    let docs_len = size(data, at + 36, MANY);
    let freqs_len = size(data, at + 40, MANY);
    let norms_len = size(data, at + 16, OUTPUT);
    let counts_at = at + 56 + 8 * weights_len;
    let docs_at = counts_at + 4 * counts_len;
    let freqs_at = docs_at + 4 * docs_len;
    let norms_at = freqs_at + 4 * freqs_len;
    let weights = read_thresholds(data, at + 56);
    let counts: [u32; FEW] = read_numbers(data, counts_at);
    let docs: [u32; MANY] = read_numbers(data, docs_at);
    let freqs: [u32; MANY] = read_numbers(data, freqs_at);
    let norms = part(data, norms_at, norms_len);
    let file = part(data, norms_at + norms_len, size(data, at + 52, OUTPUT));
    hold(
        data,
        at,
        norms,
        &weights[..weights_len],
        &counts[..counts_len],
        &docs[..docs_len],
        &freqs[..freqs_len],
        file,
    )
}
