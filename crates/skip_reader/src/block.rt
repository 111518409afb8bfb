// Block loads: the skip reader's block decoded into two lent arrays.
ghost use Rattle.skip_reader.specs.Inner.Decoded.{Decoded, ListIn};
ghost use Rattle.skip_reader.specs.Inner.Reader.{Stands};

use crate::skip::{BlockInfo, SkipReader};
use block_loads::{load_packed, load_tail, pad};
use notefile::block::{Block, DOCS, FREQS, sized};
use notefile::part::Part;
use notefile::skip::SkipEntry;

// The reader's block, filled up with TERMINATED. A tail of no documents has no bytes.
pub fn load_block(file: &[u8], x: Part, reader: SkipReader, block: &mut Block)
    requires { ListIn file.now x × Stands file.now x reader }
    ensures { Decoded file.now x reader.block block.new }
{
    let info = reader.block_info;
    let at = reader.byte_offset;
    let previous = reader.last_doc_in_previous_block;
    match info {
        BlockInfo::BitPacked {
            doc_bits,
            strict,
            freq_bits,
            norm_code,
            freq_code,
        } => {
            let e = SkipEntry {
                last: reader.last_doc_in_block,
                doc_bits,
                strict,
                freq_bits,
                norm_code,
                freq_code,
            };
            load_packed(file, x, reader.block, at, e, previous, block);
        }
        BlockInfo::VInt { num_docs } => {
            if num_docs == 0 {
                sized(block);
                pad(&mut block[DOCS], 0);
                pad(&mut block[FREQS], 0);
            } else {
                load_tail(file, x, at, previous, block);
            }
        }
    }
}
