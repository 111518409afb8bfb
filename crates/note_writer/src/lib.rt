// The writer of note files: contents are priced, which tells their refusal or the lengths of the file's parts, and then written.
#![tactic(auto)]

ghost use Rattle.std.specs.Prelude.{◌≡◌};
ghost use Rattle.outcome.specs.Refusals.{refusal_number};
ghost use Rattle.contents.specs.Contents.{handed};
ghost use Rattle.note_writer.specs.Writes.{WriteIs, length_of};

use contents::{Contents, Head};
use file_writer::write_file;
use note_price::price;
use outcome::refusal::Refusal;

// The note file of contents, for any contents and any output: its length, or what refuses the contents or the output.
pub fn write(
    h: Head,
    norms: &[u8],
    weights: &[f32],
    counts: &[u32],
    docs: &[u32],
    freqs: &[u32],
    out: &mut [u8],
) -> Result<usize, Refusal>
    ensures { let c = handed h.documents h.kind h.code norms.now h.average weights.now counts.now
        docs.now freqs.now in
        WriteIs c out.old result out.new }
{
    let mut tops = [0u8; 131072];
    let c = Contents {
        head: h,
        norms,
        weights,
        counts,
        docs,
        freqs,
    };
    let p = price(c, &mut tops)?;
    if out.len() < p.total {
        return Err(Refusal::Output);
    }
    write_file(c, p, &tops, out);
    Ok(p.total)
}

// The table's number of an answer: 0 where the file is written.
pub fn number_of(answer: Result<usize, Refusal>) -> u32
    ensures { result ≡ refusal_number answer }
{
    match answer {
        Ok(_) => 0,
        Err(refusal) => refusal.number(),
    }
}

// The length of the file; 0 where there is none.
pub fn length_of(answer: Result<usize, Refusal>) -> usize
    ensures { result ≡ length_of answer }
{
    match answer {
        Ok(length) => length,
        Err(_) => 0,
    }
}
