// Bounds: whether a bound lies below no score that it covers.
ghost use Rattle.std.specs.Prelude.{◌≡◌, ◌≤◌};
ghost use Rattle.bm25.specs.Bound.{all_covered};
ghost use Rattle.notefile.specs.Header.{norm_reader};
ghost use Rattle.notefile.specs.Inner.Given.{WeightIn};
ghost use Rattle.notefile.specs.Inner.Reads.{docs_of, freqs_of, score_among};

use bm25::Bm25Weight;
use fieldnorm::FieldNormReader;
use notefile::block::{Block, DOCS, FREQS};
use notefile::part::Part;

// Whether the bound lies below no score of the first n postings.
pub fn scores_covered(
    file: &[u8],
    reader: FieldNormReader,
    x: Part,
    w: Bm25Weight,
    n: usize,
    bound: f32,
    block: &Block,
) -> bool
    requires { (reader ≡ norm_reader file.now) × WeightIn x w × (n ≤ 128) }
    ensures { result ≡ all_covered bound n (score_among file.now x (docs_of block.now) (freqs_of block.now)) }
{
    block_cover::covered(file, reader, w, &block[DOCS], &block[FREQS], n, bound)
}
