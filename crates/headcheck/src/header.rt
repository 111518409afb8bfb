// Row 1 of the table: the header.
ghost use Rattle.std.specs.Prelude.{◌≡◌};
ghost use Rattle.notefile.specs.Conditions.{header_right};

use notefile::header::{HEADER_LENGTH, read_header};

// The version that a header must name, and the most lists and documents that it may.
const VERSION: u32 = 1;

const MAX_LISTS: usize = 16;

const MAX_DOCUMENTS: u32 = 1048576;

// Whether row 1 lets the header through.
pub fn header_right(file: &[u8]) -> bool
    ensures { result ≡ header_right file.now }
{
    if file.len() < HEADER_LENGTH {
        return false;
    }
    let h = read_header(file);
    if h.version != VERSION {
        return false;
    }
    if h.spare != 0 {
        return false;
    }
    if h.lists > MAX_LISTS {
        return false;
    }
    if h.documents > MAX_DOCUMENTS {
        return false;
    }
    if h.kind == 0 {
        return h.code == 0;
    }
    true
}
