// A decoded block: two arrays of 128 places.
ghost use Rattle.std.specs.Prelude.{◌≡◌, length};
ghost use Rattle.notefile.specs.Inner.Reads.{Sized};

// What stands for the document behind a list's last one.
pub const TERMINATED: u32 = 2147483647;

// A decoded block: its documents and its frequencies.
pub type Block = [[u32; 128]; 2];

pub const DOCS: usize = 0;

pub const FREQS: usize = 1;

// An array of 128 has 128 places. The check knows this of an array that is lent alone, and not of one inside another.
fn places(values: &[u32; 128]) -> usize
    ensures { (result ≡ 128) × (length values.now ≡ 128) }
{
    values.len()
}

// A block has two arrays of 128 places.
pub fn sized(block: &Block) -> usize
    ensures { (result ≡ 2) × Sized block.now }
{
    places(&block[DOCS]);
    places(&block[FREQS]);
    block.len()
}
