// The skip reader: block by block over a list's skip entries, and behind its tail.
ghost use Rattle.std.specs.Prelude.{◌≡◌, suc, ◌<◌};
ghost use Rattle.notefile.specs.Inner.Given.{BlocksIn};
ghost use Rattle.skip_reader.specs.Inner.Decoded.{ListIn};
ghost use Rattle.skip_reader.specs.Inner.Reader.{Sought, Stands, place_in, previous_in, reader_at, remaining};

use notefile::block::TERMINATED;
use notefile::part::Part;
use notefile::skip::read_skip_entry;

// What the reader knows of its block: of a packed one the widths and the pair of codes of its bound, of the tail its count.
#[derive(Clone, Copy)]
pub enum BlockInfo {
    BitPacked {
        doc_bits: u32,
        strict: bool,
        freq_bits: u32,
        norm_code: u8,
        freq_code: u8,
    },
    VInt {
        num_docs: usize,
    },
}

// The number of its block stands for the bytes that the Rust's reader has left; its place is one of the whole file.
#[derive(Clone, Copy)]
pub struct SkipReader {
    pub last_doc_in_block: u32,
    pub last_doc_in_previous_block: u32,
    pub block: usize,
    pub byte_offset: usize,
    pub remaining_docs: usize,
    pub block_info: BlockInfo,
}

// The reader on block b, whose documents are all in a tail where fewer than 128 are left.
fn read_block_info(
    file: &[u8],
    x: Part,
    b: usize,
    byte_offset: usize,
    previous: u32,
    remaining_docs: usize,
) -> SkipReader
    requires { BlocksIn file.now x × (byte_offset ≡ place_in file.now x b) × (previous ≡ previous_in file.now x b)
        × (remaining_docs ≡ remaining x b) }
    ensures { result ≡ reader_at file.now x b }
{
    if remaining_docs < 128 {
        return SkipReader {
            last_doc_in_block: TERMINATED,
            last_doc_in_previous_block: previous,
            block: b,
            byte_offset,
            remaining_docs,
            block_info: BlockInfo::VInt {
                num_docs: remaining_docs,
            },
        };
    }
    let e = read_skip_entry(file, x, b);
    SkipReader {
        last_doc_in_block: e.last,
        last_doc_in_previous_block: previous,
        block: b,
        byte_offset,
        remaining_docs,
        block_info: BlockInfo::BitPacked {
            doc_bits: e.doc_bits,
            strict: e.strict,
            freq_bits: e.freq_bits,
            norm_code: e.norm_code,
            freq_code: e.freq_code,
        },
    }
}

impl SkipReader {
    // The reader on a list's first block.
    pub fn new(file: &[u8], x: Part) -> SkipReader
        requires { BlocksIn file.now x }
        ensures { result ≡ reader_at file.now x 0 }
    {
        read_block_info(file, x, 0, x.postings, 0, x.count)
    }

    // The reader on block b, whose place and previous document are known.
    pub fn on(file: &[u8], x: Part, b: usize, byte_offset: usize, previous: u32) -> SkipReader
        requires { BlocksIn file.now x × (byte_offset ≡ place_in file.now x b) × (previous ≡ previous_in file.now x b)
            × (b < 4294967296) }
        ensures { result ≡ reader_at file.now x b }
    {
        let left = x.count.saturating_sub(128 * b);
        read_block_info(file, x, b, byte_offset, previous, left)
    }

    // On to the next block. A full one takes 16 bytes for each bit of width; a tail ends the postings.
    pub fn advance(self, file: &[u8], x: Part) -> SkipReader
        requires { BlocksIn file.now x × Stands file.now x self × (self.block < 4294967296) }
        ensures { result ≡ reader_at file.now x (suc self.block) }
    {
        let info = self.block_info;
        let b = self.block + 1;
        let previous = self.last_doc_in_block;
        match info {
            BlockInfo::BitPacked {
                doc_bits,
                strict: _,
                freq_bits,
                norm_code: _,
                freq_code: _,
            } => {
                let next = self.byte_offset + 16 * ((doc_bits + freq_bits) as usize);
                read_block_info(file, x, b, next, previous, self.remaining_docs - 128)
            }
            BlockInfo::VInt { num_docs: _ } => { read_block_info(file, x, b, x.end, previous, 0) }
        }
    }

    // From a block that ends before the target on to the first that does not, and no further than the tail. The reader counts its blocks
    // itself, so the loop has no index of its own.
    pub fn seek(self, file: &[u8], x: Part, target: u32) -> SkipReader
        requires { ListIn file.now x × Stands file.now x self × (self.block < 4294967296)
            × (self.last_doc_in_block < target) }
        ensures { Sought file.now x target self.block result }
    {
        let blocks = x.count / 128;
        // The reader carries the block that is counted; a `for` beside it would count the blocks twice.
        let mut reader = self;
        while reader.block < blocks {
            reader = reader.advance(file, x);
            if target <= reader.last_doc_in_block {
                return reader;
            }
        }
        reader
    }
}
