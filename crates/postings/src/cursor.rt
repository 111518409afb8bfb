// A scorer's place in its list: the block cursor and the place in the block that it decoded last.
ghost use Rattle.std.specs.Prelude.{suc, ◌≤◌, ◌<◌};
ghost use Rattle.route.specs.Cursor.{Cursor, advance_in, fresh, seek_block_in};
ghost use Rattle.bm25.specs.declared.Scoring.{Scoring};
ghost use Rattle.notefile.specs.Lists.{full_blocks};
ghost use Rattle.decoded.specs.Lists.{list_of};
ghost use Rattle.skip_reader.specs.Inner.Decoded.{ListIn};
ghost use Rattle.skip_reader.specs.Inner.Reader.{Stands};
ghost use Rattle.postings.specs.Inner.Places.{Here, Moved, Placed, Shallow, cursor_of};

use notefile::block::{Block, DOCS};
use notefile::part::Part;
use skip_reader::block::load_block;
use skip_reader::skip::SkipReader;

// The Rust's block cursor and its `cur`. The decoded block stands in two arrays beside it, and `decoded` is its number.
#[derive(Clone, Copy)]
pub struct SegmentPostings {
    pub skip_reader: SkipReader,
    pub block_loaded: bool,
    pub decoded: usize,
    pub cur: usize,
}

impl SegmentPostings {
    // On a list's first posting, with the first block loaded.
    pub fn open(file: &[u8], x: Part, block: &mut Block) -> SegmentPostings
        requires { ListIn file.now x }
        ensures { Moved file.now x (λ _. fresh) result block.new }
    {
        let skip_reader = SkipReader::new(file, x);
        load_block(file, x, skip_reader, block);
        SegmentPostings {
            skip_reader,
            block_loaded: true,
            decoded: 0,
            cur: 0,
        }
    }

    // The document that the scorer stands on, of the block decoded last.
    pub fn doc(self, block: &Block) -> u32
        requires { self.cur < 128 }
        ensures { Here self block.now result }
    {
        let cur = self.cur;
        block[DOCS][cur]
    }

    // The skip reader leaves a block that ends before the target. The document and its frequency stay those of the block decoded last.
    pub fn seek_block(self, file: &[u8], x: Part, target: u32) -> SegmentPostings
        requires { let reader = self.skip_reader in
            ListIn file.now x × Stands file.now x reader × (reader.block ≤ suc (full_blocks x))
            × (reader.last_doc_in_block < target) }
        ensures { let to : Scoring → Cursor = λ scoring. seek_block_in (list_of scoring file.now x) 128 target (cursor_of self) in
            Shallow file.now x to self result }
    {
        let reader = self.skip_reader;
        let skip_reader = reader.seek(file, x, target);
        SegmentPostings {
            skip_reader,
            block_loaded: false,
            decoded: self.decoded,
            cur: self.cur,
        }
    }

    // On to the next posting. Behind a block's last place the next block is loaded.
    pub fn advance(self, file: &[u8], x: Part, block: &mut Block) -> SegmentPostings
        requires { ListIn file.now x × Placed file.now x self block.old
            × (self.skip_reader.block ≤ full_blocks x) }
        ensures { let to : Scoring → Cursor = λ scoring. advance_in (list_of scoring file.now x) 128 (cursor_of self) in
            Moved file.now x to result block.new }
    {
        let mut p = self;
        if self.cur != 127 {
            p.cur = self.cur + 1;
            return p;
        }
        let reader = self.skip_reader;
        let skip_reader = reader.advance(file, x);
        load_block(file, x, skip_reader, block);
        SegmentPostings {
            skip_reader,
            block_loaded: true,
            decoded: skip_reader.block,
            cur: 0,
        }
    }
}
